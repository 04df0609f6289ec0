//! Names of time zones.
ghost use Rattle.muxandu_c.specs.ZoneNames.{IsNameStatus};

use crate::refused::{MuxanduStatus, Refused, status};
use zone_files::is_zone_name;

/// Checks that a text can be the name of a time zone, such as `America/Port-au-Prince`. A name has
/// parts between slashes. Each part has letters, digits, `+`, `-`, `_` and `.`, and begins with no
/// `.`. So no name is an absolute path, or leads out of the folder with the files. Error: SYNTAX.
#[unsafe(no_mangle)]
pub extern "C" fn muxandu_zone_name_check(name: &[u8]) -> MuxanduStatus
    ensures { IsNameStatus name.now result }
{
    if is_zone_name(name) {
        return 0;
    }
    status(Refused::Syntax)
}
