ghost use Rattle.std.specs.Prelude.{◌≡◌, ◌<◌, ◌≤◌, length, IfSome, OnSome, IfNone};
ghost use Rattle.ice_values.specs.Cells.{byte};
ghost use Rattle.ice_values.specs.Fields.{proof_data, IsProofData, error_body, IsError};
ghost use Rattle.ice_values.specs.declared.numbers.Endian.{Endian as AnyEndian};

use crate::ErrorBody;
use owned_lists::Octets;

/// No body of a message is longer than this many bytes.
pub const BODY_LIMIT: usize = 65536;

/// No data of an authentication is longer, since its count is a CARD16.
const DATA_LIMIT: usize = 65535;

/// The same number if no body is too short for it.
pub fn within_limit(count: usize) -> Option<usize>
    ensures none { IfNone result (65536 < count) }
    ensures some { IfSome result (λ n. (n ≡ count) × (n ≤ 65536)) }
{
    if count <= BODY_LIMIT {
        Some(count)
    } else {
        None
    }
}

/// How many bytes spell the data of an authentication. None where there are more than 65,535 bytes.
pub fn proof_len(proof: &Octets) -> Option<usize>
    ensures none { IfNone result (65535 < length proof.now) }
    ensures is { IfSome result (λ n. (e : AnyEndian) → n ≡ length (proof_data e proof.now)) }
    ensures bound { IfSome result (λ n. n ≤ 65543) }
    ensures fits { OnSome result (IsProofData proof.now) }
{
    let count = proof.len();
    if count > DATA_LIMIT {
        return None;
    }
    Some(8 + count)
}

/// How many bytes the body of an Error has. None where it has more than 65,536.
pub fn error_len(error: &ErrorBody) -> Option<usize>
    ensures none { IfNone result ((e : AnyEndian) → 65536 < length (error_body byte e error.now)) }
    ensures is { IfSome result (λ n. (e : AnyEndian) → n ≡ length (error_body byte e error.now)) }
    ensures bound { IfSome result (λ n. n ≤ 65536) }
    ensures fits { OnSome result (IsError error.now) }
{
    let count = error.values.len();
    if count > BODY_LIMIT - 8 {
        return None;
    }
    Some(8 + count)
}
