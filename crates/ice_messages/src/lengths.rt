ghost use Rattle.std.specs.Prelude.{◌≡◌, ◌≤◌, ◌<◌, ◌++◌, ◌⊎◌, length, IfSome, OnSome, IfNone};
ghost use Rattle.ice_values.specs.Cells.{byte};
ghost use Rattle.ice_values.specs.Fields.{text16, texts, versions as version_cells, IsText16};
ghost use Rattle.ice_values.specs.declared.numbers.Endian.{Endian as AnyEndian};
ghost use Rattle.ice_messages.specs.Messages.{layout, IsMessage, IsOffer, IsTooLong};

use crate::IceMessage;
use ice_values::{
    Spelled, Text16, TextList, VersionList, error_len, many_size, proof_len, within_limit,
};

fn makers_size(vendor: &Text16, release: &Text16) -> Option<usize>
    ensures none { IfNone result ((e : AnyEndian) →
        65536 < length (text16 e vendor.now ++ text16 e release.now)) }
    ensures is { IfSome result (λ n. (e : AnyEndian) →
        n ≡ length (text16 e vendor.now ++ text16 e release.now)) }
    ensures bound { IfSome result (λ n. n ≤ 65536) }
    ensures fits { OnSome result (IsText16 vendor.now × IsText16 release.now) }
{
    within_limit(vendor.size()? + release.size()?)
}

/// None also where a list has more than 255 items.
fn lists_size(names: &TextList, versions: &VersionList) -> Option<usize>
    ensures none { IfNone result ((e : AnyEndian) →
        ((255 < length names.now) ⊎ (255 < length versions.now))
        ⊎ (65536 < length (texts e names.now ++ version_cells e versions.now))) }
    ensures is { IfSome result (λ n. (e : AnyEndian) →
        n ≡ length (texts e names.now ++ version_cells e versions.now)) }
    ensures bound { IfSome result (λ n. n ≤ 65536) }
    ensures fits { OnSome result (IsOffer names.now versions.now) }
{
    let names = names.as_slice();
    let versions = versions.as_slice();
    if names.len() > 255 || versions.len() > 255 {
        return None;
    }
    within_limit(many_size(names)? + many_size(versions)?)
}

/// None also where a list has more than 255 items.
fn offer_size(
    vendor: &Text16,
    release: &Text16,
    names: &TextList,
    versions: &VersionList,
) -> Option<usize>
    ensures none { IfNone result ((e : AnyEndian) →
        ((255 < length names.now) ⊎ (255 < length versions.now))
        ⊎ (65536 < length (text16 e vendor.now ++ text16 e release.now ++ texts e names.now
        ++ version_cells e versions.now))) }
    ensures is { IfSome result (λ n. (e : AnyEndian) →
        n ≡ length (text16 e vendor.now ++ text16 e release.now ++ texts e names.now
        ++ version_cells e versions.now)) }
    ensures bound { IfSome result (λ n. n ≤ 65536) }
    ensures fits { OnSome result (IsText16 vendor.now × IsText16 release.now
        × IsOffer names.now versions.now) }
{
    let makers = makers_size(vendor, release)?;
    let lists = lists_size(names, versions)?;
    within_limit(makers + lists)
}

/// How many bytes the body of a message has, without its padding. None where it is too long.
pub fn body_size(message: &IceMessage) -> Option<usize>
    ensures none { IfNone result ((e : AnyEndian) → IsTooLong e message.now) }
    ensures is { IfSome result (λ n. (e : AnyEndian) → n ≡ length (layout byte e message.now).1) }
    ensures bound { IfSome result (λ n. n ≤ 65536) }
    ensures fits { OnSome result (IsMessage message.now) }
{
    match message {
        IceMessage::Error(error) => error_len(error),
        IceMessage::ConnectionSetup {
            vendor,
            release,
            names,
            versions,
            ..
        } => within_limit(8 + offer_size(vendor, release, names, versions)?),
        IceMessage::ProtocolSetup {
            protocol,
            vendor,
            release,
            names,
            versions,
            ..
        } => within_limit(8 + protocol.size()? + offer_size(vendor, release, names, versions)?),
        IceMessage::AuthenticationRequired { proof, .. }
        | IceMessage::AuthenticationReply { proof }
        | IceMessage::AuthenticationNextPhase { proof } => within_limit(proof_len(proof)?),
        IceMessage::ConnectionReply {
            vendor,
            release,
            ..
        }
        | IceMessage::ProtocolReply {
            vendor,
            release,
            ..
        } => makers_size(vendor, release),
        IceMessage::ByteOrder(_)
        | IceMessage::Ping
        | IceMessage::PingReply
        | IceMessage::WantToClose
        | IceMessage::NoClose => Some(0),
    }
}
