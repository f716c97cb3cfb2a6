//! The values that ICE and XSMP messages are made of.
#![tactic(auto)]

mod array8;
mod class;
mod enumerated;
mod errors;
mod frames;
mod fronts;
mod lengths;
mod numbers;
mod property;
mod refusals;
mod saves;
mod severity;
mod spelled;
mod text;
mod version;
mod view;
mod walk;
mod words;
mod writing;

pub use array8::{
    Array8, Array8List, cut_array8, read_array8, read_array8_list, write_array8, write_array8_list,
};
pub use class::ErrorClass;
pub use enumerated::{Enumerated, value_at};
pub use errors::ErrorBody;
pub use frames::{body, check_body, decode_error, end_body, no_body};
pub use fronts::{pass_bytes, skip, take_bytes, take_card16, take_card32, take_proof_data};
pub use lengths::{BODY_LIMIT, error_len, proof_len, within_limit};
pub use numbers::{Endian, pad, read_card16, read_card32};
pub use property::{
    Property, PropertyList, read_property, read_property_list, write_property, write_property_list,
};
pub use refusals::{DecodeRefusal, EncodeRefusal, Short, ValueRefusal};
pub use saves::{Dialog, SaveKind, SaveStyle};
pub use severity::Severity;
pub use spelled::{Spelled, cut_front, many_size, put_many, take_many};
pub use text::{Text16, TextList, put_text16, read_text16, write_text16};
pub use version::{Version, VersionList, read_version, write_version};
pub use view::PropertyView;
pub use walk::{PropertyWalk, walk_properties};
pub use words::{put_word, put_words};
pub use writing::{put_bytes, put_card16, put_card32, put_error, put_proof_data, put_zeros};
