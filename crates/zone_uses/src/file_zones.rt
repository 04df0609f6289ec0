//! The zone of a file.
ghost use Rattle.std.specs.Prelude.{IfOk, IfSome};
ghost use Rattle.zone_uses.specs.FileZones.{IsZoneOfBytes};
ghost use Rattle.zoned_times.specs.Zoned.{ShownIn};

use offset_times::OffsetDateTime;
use stamp_times::Timestamp;
use std::alloc::{AllocError, Global};
use zone_files::ZoneFile;
use zoned_times::ToZone;
use zones::OwnedZone;

/// The zone of the bytes of a file, such as /usr/share/zoneinfo/Europe/Berlin. None if they are no
/// file of a zone, or if its transitions and its rule make none. Fails if there is no memory for
/// the transitions.
pub fn zone_of(alloc: Global, bytes: &[u8]) -> Result<Option<OwnedZone>, AllocError>
    ensures zone { IfOk result (λ found. IfSome found (λ zone. IsZoneOfBytes bytes.now zone)) }
{
    match ZoneFile::read(bytes) {
        Ok(file) => Ok(file.owned_zone(alloc)?.ok()),
        Err(_) => Ok(None),
    }
}

/// The date-time that the clocks of the zone show at an instant. None out of range.
pub fn time_in_zone(at: Timestamp, zone: &OwnedZone) -> Option<OffsetDateTime>
    ensures { ShownIn zone.now at result }
{
    at.to_zone(&zone.zone())
}
