/// How many bytes a Unix socket's path can have at most.
const PATH_LIMIT: usize = 107;

const TOO_LONG: &str = "the path has more than 107 bytes";

/// Why the clients' socket can't have this path. A client finds the path behind the colon of a name
/// such as `local/HOST:PATH`, and takes a comma for the end of the name.
pub fn path_fault(path: &str) -> Option<&'static str> {
    if !path.starts_with("/") {
        Some("the path must be absolute")
    } else if path.len() > PATH_LIMIT {
        Some(TOO_LONG)
    } else if path.contains(":") || path.contains(",") {
        Some("the path has a colon or a comma")
    } else {
        None
    }
}

/// Why the control socket can't have this path.
pub fn control_fault(path: &str) -> Option<&'static str> {
    if path.len() > PATH_LIMIT {
        Some(TOO_LONG)
    } else {
        None
    }
}
