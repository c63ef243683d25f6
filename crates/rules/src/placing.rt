// One word of the list that is built for a profile, for a caller that needs no other.
ghost use Rattle.std.specs.Prelude.{◌≡◌, ◌≤◌, length, count_by};
ghost use Rattle.rules.specs.Tables.{rails, exceeds, fixed_slots, base_slots, slots};
ghost use Rattle.rules.specs.Placing.{full_at, placed_at};
ghost use Rattle.rules.specs.Promises.{PlacesWord};

use crate::Profile;
use crate::building::port_with_list;
use crate::port::Port;
use crate::rows::Row;
use crate::tables::{AvsRow, RAILS, SUPPLIES};
use steps::HalfWatts;

// How many rows of the fixed part M exceeds.
fn past_rails(max: HalfWatts) -> usize
    ensures { result ≡ count_by (exceeds max.0) rails }
{
    RAILS.iter().filter(|row| row.is_there(max)).count()
}

#[tactic(auto, using(crate::proofs::TableWalk::avs_on, crate::proofs::TableWalk::avs_skipped))]
fn past_avs(max: HalfWatts, at: usize) -> usize
    requires { (max.0 ≤ 200) × (at ≡ length (fixed_slots max.0 rails)) }
    ensures { result ≡ length (base_slots max.0) }
{
    if AvsRow.is_there(max) {
        return at + 1;
    }
    at
}

fn supply_at(port: Port, from: usize, asked: usize) -> Option<u32>
    requires { (from ≡ length (base_slots port.profile.max.0)) × (from ≤ asked) }
    ensures { result ≡ full_at port.profile (length (slots port.profile.max.0)) asked }
{
    let mut at = from;
    for row in SUPPLIES {
        if row.is_there(port.profile.max) {
            if at == asked {
                return Some(row.word(port, false));
            }
            at += 1;
        }
    }
    None
}

// By the place from 0. M exceeds the rows of the fixed part from the first on, so a place there has the row of its own number.
fn standing_at(port: Port, asked: usize) -> Option<u32>
    ensures { result ≡ placed_at port.profile asked }
{
    let rails = past_rails(port.profile.max);
    if asked < rails {
        let row = RAILS[asked];
        return Some(row.word(port, asked == 0));
    }
    let base = past_avs(port.profile.max, rails);
    if asked < base {
        return Some(AvsRow.word(port, false));
    }
    if port.profile.pps != 1 {
        return None;
    }
    supply_at(port, base, asked)
}

// The word at a place of the list that `build` gives, counted from 1. `None` (refusal 20) where that list has no such place; a profile
// that `build` refuses has none.
pub fn word_at(p: Profile, place: u8) -> Option<u32>
    ensures { PlacesWord p place result }
{
    if place < 1 {
        return None;
    }
    match port_with_list(p) {
        Ok(port) => standing_at(port, (place - 1) as usize),
        Err(_) => None,
    }
}
