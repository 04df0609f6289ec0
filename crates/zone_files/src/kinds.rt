//! The kinds of local time of a file.
ghost use Rattle.std.specs.Prelude.{◌≡◌, ◌+◌, ◌*◌, ◌≤◌, ◌<◌, IfSome, length};
ghost use Rattle.zone_files.specs.FileGrammar.{IsKind};
ghost use Rattle.zone_files.specs.FileReading.{size_of};
ghost use Rattle.zone_files.specs.Files.{block_parts};
ghost use Rattle.zone_files.specs.Kinds.{IsKindOf, IsNowhere, IsPlaceOf, name_from, time_at};

use crate::blocks::{Block, long, signed_word};
use crate::pieces::{Kind, split};
use zones::TimeType;

// The abbreviation that begins at a place of their list.
pub(crate) fn name_from(names: &[u8], k: usize) -> &[u8]
    requires { k ≤ length names.now }
    ensures { result.now ≡ name_from names.now k }
{
    split(Kind::Named, &names[k..]).0
}

// The first place below a limit at which an abbreviation begins.
pub(crate) fn place_of(names: &[u8], text: &[u8], limit: usize) -> Option<usize>
    requires { limit ≤ length names.now }
    ensures place { IsPlaceOf names.now text.now limit result }
    ensures below { IfSome result (λ k. k < limit) }
{
    'places: for k in 0..limit {
        if name_from(names, k) == text {
            return Some(k);
        }
    }
    None
}

// The first place of the abbreviation that begins at this one.
fn number_of(names: &[u8], k: usize) -> u16
    requires within { k ≤ length names.now }
    requires bound { k < 256 }
    ensures named { name_from names.now result ≡ name_from names.now k }
    ensures first { IsNowhere names.now (name_from names.now k) result }
{
    match place_of(names, name_from(names, k), k) {
        Some(place) => place as u16,
        None => k as u16,
    }
}

// The kind of local time at a place.
pub(crate) fn kind_at(block: Block<'_>, k: usize) -> TimeType
    requires room { 6 * k + 6 ≤ length block.types.now }
    requires kind { IsKind (block_parts block) k }
    ensures { IsKindOf (block_parts block.entry) k result }
{
    let name = block.types[6 * k + 5] as usize;
    TimeType {
        offset: signed_word(block.types, 6 * k) as i32,
        is_daylight: block.types[6 * k + 4] == 1,
        designation: number_of(block.names, name),
    }
}

// The second of a transition.
pub(crate) fn second_at(is_wide: bool, times: &[u8], i: usize) -> i64
    requires { i * size_of is_wide + size_of is_wide ≤ length times.now }
    ensures { result ≡ time_at is_wide times.now i }
{
    if is_wide {
        long(times, 8 * i)
    } else {
        signed_word(times, 4 * i)
    }
}
