//! The words of a line in their places.

ghost use Rattle.std.specs.Prelude.{◌≡◌, ◌<◌, ◌≤◌, [], true, Some, None, IfOk, OnOk, OnErr, MatchBool, is_some, length, nat_lt, ◌&&◌};
ghost use Rattle.std.specs.Option.{option_map};
ghost use Rattle.rh_words.specs.Text.{words_of};
ghost use Rattle.rh_words.specs.Values.{SayWords};
ghost use Rattle.rh_words.specs.Places.{agrees, places_reason, passes_word, first_reason, FitPlaces};
ghost use Rattle.rh_words.specs.PlaceWalks.{places, next_place, may_end, word_value, with_kept, ToldBy, IsNothingTold};
ghost use Rattle.rh_words.specs.Refusals.{OnRefused};

use crate::keyword::says_keyword;
use crate::lines::LineWords;
use crate::name::Name;
use crate::number::read_number;
use crate::reason::{Fault, OutOfMemory, Reason};
use crate::value::{Place, Value, read_pair};
use std::alloc::Global;
use std::marker::Model;

/// The places of the words of a line that come next.
#[derive(Drop)]
pub struct PlaceWalk {
    here: &'static [Place],
    more: &'static [Place],
    again: &'static [Place],
}

impl Model for PlaceWalk {
    ghost use Rattle.rh_words.specs.PlaceWalks.{Places, places};

    ghost Value = { Places };

    ghost view = { λ p. places p.here.now p.more.now p.again.now };
}

impl PlaceWalk {
    /// The places `here` one by one. Then the words end, or those of `more` follow, and after them those of `again`, any
    /// number of times.
    pub fn of(here: &'static [Place], more: &'static [Place], again: &'static [Place]) -> PlaceWalk
        ensures { result ≡ places here.now more.now again.now }
    {
        PlaceWalk { here, more, again }
    }

    /// Whether the words may end here.
    pub fn may_end(&self) -> bool
        ensures { result ≡ may_end self.now }
    {
        self.here.is_empty()
    }

    /// The next place.
    pub fn next(&mut self) -> Option<Place>
        ensures { next_place self.old ≡ option_map (λ p. (p, self.new)) result }
    {
        if self.here.is_empty() {
            if self.more.is_empty() {
                return None;
            }
            let place = self.more[0];
            self.here = &self.more[1..];
            self.more = self.again;
            return Some(place);
        }
        let place = self.here[0];
        self.here = &self.here[1..];
        Some(place)
    }
}

/// One more value behind the others, where values are kept.
fn keep(values: &mut Vec<Value>, keeping: bool, value: Value) -> Result<(), OutOfMemory>
    ensures ok { OnOk result (values.new.items ≡ with_kept values.old.items (Some value) keeping) }
    ensures err { OnErr result (values.new.items ≡ values.old.items) }
{
    if keeping {
        values.push(value)?;
    }
    Ok(())
}

/// Keeps what the word says in its place, where values are kept, and answers whether the word fits there.
fn keep_word(
    values: &mut Vec<Value>,
    keeping: bool,
    place: Place,
    word: &[u8],
) -> Result<bool, OutOfMemory>
    ensures fits { IfOk result (λ fits. fits ≡ is_some (word_value place word.now)) }
    ensures ok { OnOk result (values.new.items ≡ with_kept values.old.items (word_value place word.now) keeping) }
    ensures err { OnErr result (values.new.items ≡ values.old.items) }
{
    match place {
        Place::WordPlace(keyword) => {
            if !says_keyword(word, keyword) {
                return Ok(false);
            }
            keep(values, keeping, Value::AWord(keyword))?;
        }
        Place::NamePlace => {
            let Some(name) = Name::read(word) else {
                return Ok(false);
            };
            keep(values, keeping, Value::AName(name))?;
        }
        Place::NumberPlace => {
            let Ok(number) = read_number(word) else {
                return Ok(false);
            };
            keep(values, keeping, Value::ANumber(number))?;
        }
        Place::MaskPlace => {
            let Ok(mask) = read_number(word) else {
                return Ok(false);
            };
            keep(values, keeping, Value::AMask(mask))?;
        }
        Place::PairPlace => {
            let Some((first, second)) = read_pair(word) else {
                return Ok(false);
            };
            keep(values, keeping, Value::APair(first, second))?;
        }
    }
    Ok(true)
}

/// What the words so far told.
#[derive(Drop)]
struct Told {
    /// What they say, as long as all of it is kept.
    values: Vec<Value>,
    /// Whether each word in the place of a name is a name.
    names: bool,
    /// Whether each word in the place of a number, a mask or a pair is one.
    numbers: bool,
    /// Whether each word in the place of a keyword is this keyword.
    words: bool,
    /// Whether the value of each word that fits is kept: so it is until there are too many.
    keeping: bool,
}

impl Told {
    /// Whether all values so far are kept, and one more may be.
    fn has_room(&self, most: usize) -> bool
        ensures { result ≡ (self.now.keeping && nat_lt (length self.now.values.items) most) }
    {
        self.keeping && self.values.len() < most
    }

    /// One more word, in this place. At most `most` values are kept.
    fn tell(&mut self, most: usize, place: Place, word: &[u8]) -> Result<(), OutOfMemory>
        ensures told { OnOk result (ToldBy most self.old.names self.old.numbers self.old.words self.old.keeping self.old.values.items place word.now
            self.new.names self.new.numbers self.new.words self.new.keeping self.new.values.items) }
        ensures short { length self.old.values.items ≤ most → length self.new.values.items ≤ most }
    {
        self.keeping = self.has_room(most);
        if !keep_word(&mut self.values, self.keeping, place, word)? {
            match place {
                Place::WordPlace(_) => self.words = false,
                Place::NamePlace => self.names = false,
                Place::NumberPlace => self.numbers = false,
                Place::MaskPlace => self.numbers = false,
                Place::PairPlace => self.numbers = false,
            }
        }
        Ok(())
    }

    /// Reads the words of a line, which stand in these places.
    #[inline(never)]
    fn read(&mut self, places: PlaceWalk, most: usize, line: &[u8]) -> Result<bool, Fault<Reason>>
        requires { IsNothingTold self.old.names self.old.numbers self.old.words self.old.keeping self.old.values.items }
        ensures ok { IfOk result (λ kept. MatchBool kept
            (SayWords (words_of line.now) self.new.values.items × FitPlaces places.here places.more places.again self.new.values.items)
            ((places_reason places.here places.more places.again (words_of line.now) ≡ None) × (most < length (words_of line.now)))) }
        ensures short { length self.new.values.items ≤ most }
        ensures refused { OnRefused result (λ reason. places_reason places.here places.more places.again (words_of line.now) ≡ Some reason) }
    {
        let mut words = LineWords::of(line);
        let mut left = places;
        while let Some(word) = words.next() {
            let Some(place) = left.next() else {
                return Err(Fault::Refused(first_reason(self.names, self.numbers)));
            };
            self.tell(most, place, word)?;
        }
        if self.names && self.numbers && self.words && left.may_end() {
            Ok(self.keeping)
        } else {
            Err(Fault::Refused(first_reason(self.names, self.numbers)))
        }
    }
}

/// The reason of words of which some name, else some number, else some other word or their count is wrong.
fn first_reason(names: bool, numbers: bool) -> Reason
    ensures { result ≡ first_reason names numbers }
{
    if !names {
        Reason::BadName
    } else if !numbers {
        Reason::BadNumber
    } else {
        Reason::Count
    }
}

/// What the words of the line say that was read last. Its memory is used again for each line.
#[derive(Drop)]
pub struct LineValues {
    told: Told,
}

impl Model for LineValues {
    ghost use Rattle.std.specs.Prelude.{List};
    ghost use Rattle.rh_words.specs.declared.value.Value.{Value as WordValue};

    ghost Value = { List WordValue };

    ghost view = { λ l. l.told.values.items };
}

impl LineValues {
    /// No line was read.
    pub fn new(alloc: Global) -> LineValues
        ensures { result ≡ [] }
    {
        LineValues {
            told: Told {
                values: Vec::new(alloc),
                names: true,
                numbers: true,
                words: true,
                keeping: true,
            },
        }
    }

    /// The values, one for each word.
    pub fn as_slice(&self) -> &[Value]
        ensures { result.now ≡ self.now }
    {
        self.told.values.as_slice()
    }

    /// Reads the words of a line, which stand in these places, and answers whether their values are kept: words that fit
    /// and are more than `most` are counted alone. Else the reason is the first of 4 to 6 that holds of the words. Whatever
    /// the answer, no more than `most` values take memory.
    pub fn read(
        &mut self,
        places: PlaceWalk,
        most: usize,
        line: &[u8],
    ) -> Result<bool, Fault<Reason>>
        ensures ok { IfOk result (λ kept. MatchBool kept
            (SayWords (words_of line.now) self.new × FitPlaces places.here places.more places.again self.new)
            ((places_reason places.here places.more places.again (words_of line.now) ≡ None) × (most < length (words_of line.now)))) }
        ensures short { length self.new ≤ most }
        ensures refused { OnRefused result (λ reason. places_reason places.here places.more places.again (words_of line.now) ≡ Some reason) }
    {
        self.told.values.clear();
        self.told.names = true;
        self.told.numbers = true;
        self.told.words = true;
        self.told.keeping = true;
        self.told.read(places, most, line)
    }
}

/// Whether the words that are there agree with these places.
pub fn agrees(choice: &[Place], mut words: LineWords<'_>) -> bool
    ensures { result ≡ agrees choice.now words.entry }
{
    for place in choice {
        let Some(word) = words.next() else {
            return true;
        };
        if !is_word_at(*place, word) {
            return false;
        }
    }
    true
}

/// Whether the word is the place's own, where the place has one.
fn is_word_at(place: Place, word: &[u8]) -> bool
    ensures { result ≡ passes_word place word.now }
{
    match place {
        Place::WordPlace(keyword) => says_keyword(word, keyword),
        _ => true,
    }
}
