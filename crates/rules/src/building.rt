// The list that is built for a profile.
ghost use Rattle.std.specs.Prelude.{◌≡◌, MatchResult, Ok, Err, true, ◌+◌, ◌<◌, eqb, length, set};
ghost use Rattle.verdicts.specs.Refusals.{NoneApply, err, first_of, passed_by};
ghost use Rattle.objects.specs.Bits.{bits};
ghost use Rattle.lists.specs.Writing.{no_words};
ghost use Rattle.rules.specs.Profiles.{build_refusals, pps_below_maximum};
ghost use Rattle.rules.specs.Tables.{rails, fixed_slots, base_slots};
ghost use Rattle.rules.specs.Building.{slot_word, built_count, built_words, PutIf, PutDown};
ghost use Rattle.rules.specs.Promises.{Builds};

use crate::Profile;
use crate::port::Port;
use crate::rows::{Row, avs_with};
use crate::tables::{AvsRow, RAILS, ROW_15_V, ROW_20_V, SUPPLIES};
use lists::{Listing, NO_WORDS, Words};
use steps::Ma10;
use verdicts::{PASSED, Verdict};

// A word goes to the end of a list that has room.
fn push(list: &mut Words, word: u32)
    requires { list.old.count < 7 }
    ensures { (list.new.words ≡ set list.old.words list.old.count word) × (list.new.count ≡ list.old.count + 1) }
{
    list.words[list.count as usize] = word;
    list.count += 1;
}

// The word of a row, where the port has its object.
fn put_row<R: Row>(list: &mut Words, port: Port, row: R)
    requires { R.real row × (R.there port.profile.max.0 row ≡ true → list.old.count < 7) }
    ensures { PutIf (R.there port.profile.max.0 row) (slot_word port.profile (eqb list.old.count 0) (R.slot port.profile.max.0 row)) list.old.words list.old.count list.new.words list.new.count }
{
    if row.is_there(port.profile.max) {
        let word = row.word(port, list.count == 0);
        push(list, word);
    }
}

// One loop for each table: a common one over a slice of rows would be no plainer, since it would have to be told what stands before them.
fn put_rails(list: &mut Words, port: Port)
    requires { list.old ≡ no_words }
    ensures { PutDown port.profile (length (fixed_slots port.profile.max.0 rails)) list.new.words list.new.count }
{
    for row in RAILS {
        put_row(list, port, row);
    }
}

// The current of a fixed word stands in its bits 9..0.
fn current_in(word: u32) -> Ma10
    ensures { result.0 ≡ bits word 9 0 }
{
    Ma10((word & 0x3FF) as u16)
}

// "The first AVS current is that of the 15 V object. The second is that of the 20 V object, or zero where there is none." They are taken
// from the words put down before, since each costs a division to work out again. The rows rise, so a row that M exceeds has its word at
// its own place; at the place of any other there is still 0.
fn put_avs(list: &mut Words, port: Port)
    requires { PutDown port.profile (length (fixed_slots port.profile.max.0 rails)) list.old.words list.old.count }
    ensures { PutDown port.profile (length (base_slots port.profile.max.0)) list.new.words list.new.count }
{
    if AvsRow.is_there(port.profile.max) {
        let low = current_in(list.words[ROW_15_V]);
        let high = current_in(list.words[ROW_20_V]);
        let word = avs_with(low, high);
        push(list, word);
    }
}

// Programmable supplies stand in a list only where they are wanted.
fn put_supplies(list: &mut Words, port: Port)
    requires { PutDown port.profile (length (base_slots port.profile.max.0)) list.old.words list.old.count }
    ensures { PutDown port.profile (built_count port.profile) list.new.words list.new.count }
{
    if port.profile.pps == 1 {
        for row in SUPPLIES {
            put_row(list, port, row);
        }
    }
}

// Whether PPS is wanted of a port that has less than its maximum (6).
fn wants_too_much(port: Port) -> bool
    ensures { result ≡ pps_below_maximum port.profile }
{
    port.profile.pps == 1 && port.profile.present < port.profile.max
}

// The port of a profile that has a list: 1 to 5, then 6.
#[tactic(auto, using(crate::proofs::Builds::bad_profile))]
pub(crate) fn port_with_list(p: Profile) -> Result<Port, Verdict>
    ensures { MatchResult result (λ port. (port.profile ≡ p) × NoneApply (build_refusals p)) (λ v. passed_by (build_refusals p) ≡ Err v) }
{
    let port = Port::try_from(p)?;
    if wants_too_much(port) {
        return Err(Verdict::placeless(verdicts::PPS_BELOW_MAXIMUM));
    }
    Ok(port)
}

// The list that a port with this profile advertises. Refusals: 1, 2, 3, 4, 5, 6.
// It is put down where it is handed out: as a Result it was copied twice more, and that took half of the time again.
#[tactic(auto, using(crate::proofs::Builds::build_refused, crate::proofs::Builds::build_clear))]
pub fn build(p: Profile) -> Listing
    ensures { Builds p result }
{
    let port = match port_with_list(p) {
        Ok(port) => port,
        Err(verdict) => return Listing::from(Err(verdict)),
    };
    let mut listing = Listing {
        verdict: PASSED,
        list: NO_WORDS,
    };
    put_rails(&mut listing.list, port);
    put_avs(&mut listing.list, port);
    put_supplies(&mut listing.list, port);
    listing
}
