ghost use Rattle.std.specs.Prelude.{◌≡◌, IfOk, IsErrOf, Ok, Err, option_map};
ghost use Rattle.clap.specs.Lexer.{name_and_value};
ghost use Rattle.program_words.specs.Words.{texts};
ghost use Rattle.word_complaints.specs.Walks.{checked, complaint_in, end_complaint, is_flag, on_awaited, on_option_word, on_place, on_value, on_word, place_complaint, start_of, stepped, value_complaint, walked};
ghost use Rattle.word_complaints.specs.declared.complaint.Complaint.{Complaint};
ghost use Rattle.word_complaints.specs.declared.complaint.Stop.TheVariants as stop;

use crate::complaint::{Complaint, Stop};
use crate::given::Given;
use crate::option_name::OptionName;
use crate::place::Place;
use crate::wanted::is_number;
use guest_words::{MemoryWant, Name};
use program_words::limits::LOADS;
use program_words::{CommandKind, is_port};
use std::alloc::{AllocError, Global};

/// Where a walk over the words behind a command stands.
#[derive(Clone, Copy)]
pub struct Walk {
    pub kind: CommandKind,
    /// The options that were met.
    pub given: Given,
    /// The option that waits for its value.
    pub waiting: Option<OptionName>,
    /// The next word that isn't an option's.
    pub next: Option<Place>,
    /// A word `--` was met: no option stands behind it.
    pub only_words: bool,
}

/// Whether the word begins with a hyphen and isn't only one.
fn is_flag(word: &str) -> bool
    ensures value { result ≡ is_flag word.now }
{
    word.len() > 1 && word.as_bytes()[0] == b'-'
}

/// What stands before the first `=`, and what stands behind it, where there is one.
fn name_and_value(word: &str) -> (&str, Option<&str>)
    ensures value { (result.0.now, option_map (λ s. s.now) result.1) ≡ name_and_value word.now }
{
    match word.split_once('=') {
        Some((name, value)) => (name, Some(value)),
        None => (word, None),
    }
}

fn name(alloc: Global, text: &str) -> Result<Name, AllocError>
    ensures ok { IfOk result (λ name. name ≡ text.now) }
{
    Ok(Name::of(String::from_str(alloc, text)?))
}

/// What is wrong with a value of the option.
fn value_complaint(
    alloc: Global,
    option: OptionName,
    value: &str,
) -> Result<Option<Complaint>, AllocError>
    ensures ok { IfOk result (λ c. c ≡ value_complaint option value.now) }
{
    if option.wanted().fits(value) {
        return Ok(None);
    }
    Ok(Some(Complaint::BadValue {
        option,
        value: name(alloc, value)?,
    }))
}

/// What is wrong with a word in a place.
fn place_complaint(alloc: Global, place: Place, word: &str) -> Result<Option<Complaint>, AllocError>
    ensures ok { IfOk result (λ c. c ≡ place_complaint place word.now) }
{
    match place {
        Place::Number if !is_number(1, LOADS, word) => Ok(Some(Complaint::NoNumber {
            word: name(alloc, word)?,
        })),
        Place::Port if !is_port(word) => Ok(Some(Complaint::NoPort {
            word: name(alloc, word)?,
        })),
        _ => Ok(None),
    }
}

impl Walk {
    /// Before the first word.
    pub fn start(kind: CommandKind) -> Walk
        ensures value { result ≡ start_of kind }
    {
        Walk {
            kind,
            given: Given {
                points: false,
                harts: false,
                budget: false,
                seed: false,
                returns: false,
                save: false,
                report: false,
            },
            waiting: None,
            next: Some(Place::first(kind)),
            only_words: false,
        }
    }

    /// The walk, where nothing is wrong.
    fn unless(self, complaint: Option<Complaint>) -> Result<Walk, Stop>
        ensures ok { IfOk result (λ walk. checked self complaint ≡ Ok walk) }
        ensures stops { (c : Complaint) → IsErrOf result (stop.Complaint c)
            → checked self complaint ≡ Err c }
    {
        match complaint {
            Some(complaint) => Err(Stop::Complaint(complaint)),
            None => Ok(self),
        }
    }

    /// The word stands in the next place.
    fn place(self, alloc: Global, word: &str) -> Result<Walk, Stop>
        ensures ok { IfOk result (λ walk. on_place self word.now self.next ≡ Ok walk) }
        ensures stops { (c : Complaint) → IsErrOf result (stop.Complaint c)
            → on_place self word.now self.next ≡ Err c }
    {
        let Some(place) = self.next else {
            return Err(Stop::Complaint(Complaint::Extra {
                word: name(alloc, word)?,
            }));
        };
        let complaint = place_complaint(alloc, place, word)?;
        let walk = Walk {
            next: place.next(self.kind),
            ..self
        };
        walk.unless(complaint)
    }

    /// The option stands with its value in the same word, or waits for it.
    fn value(self, alloc: Global, option: OptionName, value: Option<&str>) -> Result<Walk, Stop>
        ensures ok { IfOk result (λ walk.
            on_value self option (option_map (λ v. v.now) value.entry) ≡ Ok walk) }
        ensures stops { (c : Complaint) → IsErrOf result (stop.Complaint c)
            → on_value self option (option_map (λ v. v.now) value.entry) ≡ Err c }
    {
        match value {
            Some(value) => {
                let complaint = value_complaint(alloc, option, value)?;
                self.unless(complaint)
            }
            None => Ok(Walk {
                waiting: Some(option),
                ..self
            }),
        }
    }

    /// The word is an option's.
    #[tactic(auto, unfolding(crate::specs::Walks::on_option_word))]
    fn option(self, alloc: Global, word: &str) -> Result<Walk, Stop>
        ensures ok { IfOk result (λ walk. on_option_word self word.now ≡ Ok walk) }
        ensures stops { (c : Complaint) → IsErrOf result (stop.Complaint c)
            → on_option_word self word.now ≡ Err c }
    {
        let (text, value) = name_and_value(word);
        let Some(option) = OptionName::of(self.kind, text) else {
            return Err(Stop::Complaint(Complaint::NoOption {
                name: name(alloc, text)?,
            }));
        };
        if self.given.has(option) {
            return Err(Stop::Complaint(Complaint::Twice { option }));
        }
        let walk = Walk {
            given: self.given.with(option),
            ..self
        };
        walk.value(alloc, option, value)
    }

    /// No option waits for the word.
    fn word(self, alloc: Global, word: &str) -> Result<Walk, Stop>
        ensures ok { IfOk result (λ walk. on_word self word.now ≡ Ok walk) }
        ensures stops { (c : Complaint) → IsErrOf result (stop.Complaint c)
            → on_word self word.now ≡ Err c }
    {
        if self.only_words {
            self.place(alloc, word)
        } else if word == "--" {
            Ok(Walk {
                only_words: true,
                ..self
            })
        } else if is_flag(word) {
            self.option(alloc, word)
        } else {
            self.place(alloc, word)
        }
    }

    /// The option waits for the word.
    fn awaited(self, alloc: Global, option: OptionName, word: &str) -> Result<Walk, Stop>
        ensures ok { IfOk result (λ walk. on_awaited self option word.now ≡ Ok walk) }
        ensures stops { (c : Complaint) → IsErrOf result (stop.Complaint c)
            → on_awaited self option word.now ≡ Err c }
    {
        if is_flag(word) {
            return Err(Stop::Complaint(Complaint::NoValue { option }));
        }
        let complaint = value_complaint(alloc, option, word)?;
        let walk = Walk {
            waiting: None,
            ..self
        };
        walk.unless(complaint)
    }

    /// Goes over one word.
    #[tactic(auto, unfolding(crate::specs::Walks::stepped))]
    fn step(self, alloc: Global, word: &str) -> Result<Walk, Stop>
        ensures ok { IfOk result (λ walk. stepped self word.now ≡ Ok walk) }
        ensures stops { (c : Complaint) → IsErrOf result (stop.Complaint c)
            → stepped self word.now ≡ Err c }
    {
        match self.waiting {
            Some(option) => self.awaited(alloc, option, word),
            None => self.word(alloc, word),
        }
    }

    /// Goes over words.
    fn over(self, alloc: Global, words: &[String]) -> Result<Walk, Stop>
        ensures ok { IfOk result (λ walk. walked self (texts words.now) ≡ Ok walk) }
        ensures stops { (c : Complaint) → IsErrOf result (stop.Complaint c)
            → walked self (texts words.now) ≡ Err c }
    {
        let mut walk = self;
        for word in words {
            walk = walk.step(alloc, word.as_str())?;
        }
        Ok(walk)
    }

    /// What is wrong at the end.
    fn end(self) -> Option<Complaint>
        ensures value { result ≡ end_complaint self }
    {
        match (self.waiting, self.next) {
            (Some(option), _) => Some(Complaint::NoValue { option }),
            (None, Some(place)) if place.is_required() => Some(Complaint::Missing { place }),
            _ => None,
        }
    }
}

/// The first thing that is wrong with the words behind a command.
pub fn complaint(
    alloc: Global,
    kind: CommandKind,
    words: &[String],
) -> Result<Option<Complaint>, MemoryWant>
    ensures ok { IfOk result (λ c. c ≡ complaint_in kind (texts words.now)) }
{
    match Walk::start(kind).over(alloc, words) {
        Ok(walk) => Ok(walk.end()),
        Err(Stop::Complaint(complaint)) => Ok(Some(complaint)),
        Err(Stop::Memory) => Err(MemoryWant),
    }
}
