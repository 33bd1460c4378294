//! Events as words.
ghost use Rattle.std.specs.Prelude.{◌≡◌, ◌≢◌, ℕ, ◌+◌, ◌*◌, ◌<◌, ◌≤◌, ◌↔◌, IsTrue, IfSome, IfNone, Option};
ghost use Rattle.load_events.specs.Events.{packed, word_of, answer_tag, answer_number, context_number, HasParts, IsNarrow, IsNarrowContext, IsNarrowAnswer};

use crate::event::{Answer, Event};
use crate::load_fault::LoadFault;
use clr_base::{Handle, SigId};

// The handles of a word are below this.
const HANDLES: u32 = 262_144;

// The signatures of a word are below this.
const SIGNATURES: u32 = 16_777_471;

fn pack(tag: u64, caller: u32, first: u32, second: u32) -> u64
    requires { (tag < 8) × (caller < 4096) × (first < 524288) × (second < 16777471) }
    ensures { result ≡ packed tag caller first second }
{
    tag + 8 * (caller as u64 + 4096 * (first as u64 + 524_288 * second as u64))
}

// 0 without a context, else its handle and 1.
fn context_code(context: Option<Handle>) -> u32
    requires { context_number context < 524288 }
    ensures { result ≡ context_number context }
{
    match context {
        None => 0,
        Some(handle) => handle.0 + 1,
    }
}

fn context_of(number: u32) -> Option<Handle>
    ensures { context_number result ≡ number }
{
    if number == 0 {
        None
    } else {
        Some(Handle(number - 1))
    }
}

fn is_narrow_context(context: Option<Handle>) -> bool
    ensures { IsTrue result ↔ IsNarrowContext context }
{
    match context {
        None => true,
        Some(handle) => handle.0 < HANDLES,
    }
}

fn is_narrow_answer(answer: Answer) -> bool
    ensures { IsTrue result ↔ IsNarrowAnswer answer }
{
    match answer {
        Answer::Loaded { handle, first: _ } => handle.0 < HANDLES,
        Answer::Refused(_) => true,
    }
}

// The outcome of a tag and a number.
fn answer_of(tag: u64, number: u32) -> Option<Answer>
    ensures some { IfSome result (λ a. (answer_tag a ≡ tag) × (answer_number a ≡ number)) }
    ensures none { IfNone result ((a : Answer) → answer_tag a ≡ tag → answer_number a ≢ number) }
{
    let handle = Handle(number);
    match tag {
        4 => Some(Answer::Loaded {
            handle,
            first: false,
        }),
        5 => Some(Answer::Loaded {
            handle,
            first: true,
        }),
        6 => match LoadFault::of_number(number) {
            Some(fault) => Some(Answer::Refused(fault)),
            None => None,
        },
        _ => None,
    }
}

// The event of a tag and three numbers.
fn of_parts(tag: u64, caller: u32, first: u32, second: u32) -> Option<Event>
    ensures some { IfSome result (λ e. HasParts e tag caller first second) }
    ensures none { IfNone result ((e : Event) → ¬ HasParts e tag caller first second) }
{
    if tag == 1 {
        return Some(Event::Ask {
            caller,
            context: context_of(first),
            sig: SigId(second),
        });
    }
    if tag == 2 || tag == 3 {
        return Some(Event::Find {
            caller,
            context: context_of(first),
            sig: SigId(second),
            found: tag == 3,
        });
    }
    if second != 0 {
        return None;
    }
    match answer_of(tag, first) {
        Some(outcome) => Some(Event::Done { caller, outcome }),
        None => None,
    }
}

impl Event {
    /// Whether a word has room for the event's numbers: the caller is below 4,096, each handle below 262,144,
    /// and the signature below 16,777,471.
    pub fn is_narrow(self) -> bool
        ensures { IsTrue result ↔ IsNarrow self }
    {
        match self {
            Event::Ask {
                caller,
                context,
                sig,
            } => caller < 4096 && is_narrow_context(context) && sig.0 < SIGNATURES,
            Event::Done { caller, outcome } => caller < 4096 && is_narrow_answer(outcome),
            Event::Find {
                caller,
                context,
                sig,
                found: _,
            } => caller < 4096 && is_narrow_context(context) && sig.0 < SIGNATURES,
        }
    }

    /// The word of an event: its tag, from 1 to 6, and three numbers,
    /// `tag + 8 * (caller + 4096 * (first + 524288 * second))`.
    pub fn word(self) -> u64
        requires { IsNarrow self }
        ensures { (result ≡ word_of self) × (0 < result) }
    {
        match self {
            Event::Ask {
                caller,
                context,
                sig,
            } => pack(1, caller, context_code(context), sig.0),
            Event::Done { caller, outcome } => match outcome {
                Answer::Loaded { handle, first } => {
                    pack(if first { 5 } else { 4 }, caller, handle.0, 0)
                }
                Answer::Refused(fault) => pack(6, caller, fault.number(), 0),
            },
            Event::Find {
                caller,
                context,
                sig,
                found,
            } => pack(
                if found { 3 } else { 2 },
                caller,
                context_code(context),
                sig.0,
            ),
        }
    }

    /// The event of a word, or None where no event has it.
    pub fn read(word: u64) -> Option<Event>
        ensures some { IfSome result (λ e. (word_of e ≡ word) × IsNarrow e) }
        ensures none { IfNone result ((e : Event) → IsNarrow e → word_of e ≢ word) }
    {
        let caller = (word / 8 % 4096) as u32;
        let first = (word / 32_768 % 524_288) as u32;
        let second = (word / 17_179_869_184) as u32;
        match of_parts(word % 8, caller, first, second) {
            Some(event) if event.is_narrow() => Some(event),
            _ => None,
        }
    }

    /// The event of a word that is an event's.
    pub fn of_word(word: u64) -> Event
        requires { (e : Event) × IsNarrow e × (word_of e ≡ word) }
        ensures { (word_of result ≡ word) × IsNarrow result }
    {
        match Event::read(word) {
            Some(event) => event,
            None => unreachable!(),
        }
    }
}
