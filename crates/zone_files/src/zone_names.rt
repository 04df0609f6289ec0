//! The names of zones.
ghost use Rattle.std.specs.Prelude.{◌≡◌, ◌↔◌, IsTrue};
ghost use Rattle.zone_files.specs.ZoneNames.{IsZoneName, may_follow};

// Whether a byte may follow the one before it in a name.
fn may_follow(before: u8, byte: u8) -> bool
    ensures { result ≡ may_follow before byte }
{
    if byte == b'/' || byte == b'.' {
        return before != b'/';
    }
    byte.is_ascii_alphanumeric() || byte == b'+' || byte == b'-' || byte == b'_'
}

/// Returns whether the text can be the name of a zone, such as `America/Port-au-Prince`. A name has
/// parts between slashes. Each part has letters, digits, `+`, `-`, `_` and `.`, and begins with no
/// `.`. So no name is an absolute path, or leads out of its folder.
pub fn is_zone_name(text: &[u8]) -> bool
    ensures { IsTrue result ↔ IsZoneName text.now }
{
    let mut before = b'/';
    'bytes: for k in 0..text.len() {
        if !may_follow(before, text[k]) {
            return false;
        }
        before = text[k];
    }
    before != b'/'
}
