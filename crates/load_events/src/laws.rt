//! What holds of the words of events.
ghost use Rattle.std.specs.Prelude.{◌≡◌};
ghost use Rattle.load_events.specs.Events.{word_of, IsNarrow};
ghost use Rattle.load_events.specs.declared.event.Event.{Event};

/// Distinct events have distinct words.
pub fn one_event()
    ensures { (d e : Event) → IsNarrow d → IsNarrow e → word_of d ≡ word_of e → d ≡ e }
{}
