// The lines that say how a task is seen.

ghost use Rattle.std.specs.Prelude.{◌≡◌};
ghost use Rattle.ded_io.specs.Counts.{HasCause};
ghost use Rattle.ded_io.specs.Written.{Wrote, each_text};
ghost use Rattle.task_local.specs.OfferView.{offer_as};
ghost use Rattle.divergence.specs.ViewText.{number_line, member_line, form_word, choice_line, offer_lines};
ghost use Rattle.divergence.specs.inner.Shown.{shown_lines};

use ded_io::decimals::{put_number, put_signed};
use ded_io::{Sink, SinkError};
use event_machine::{CallForm, Choice};
use feasible::TaskView;
use task_local::Offer;

// Appends the lines of what is shown of a task.
pub(crate) fn put_view<K: Sink>(view: TaskView<'_>, out: &mut K) -> Result<(), SinkError>
    ensures bytes { Wrote result (K.told out.old) (K.told out.new) (shown_lines view.entry) }
    ensures cause { HasCause (K.faults out.old) (K.faults out.new) result }
{
    match view {
        TaskView::Closed => out.put(b"  closed\n"),
        TaskView::Busy => out.put(b"  busy\n"),
        TaskView::At(offer) => put_offer(offer, out),
    }
}

// Appends the lines of an offer.
#[tactic(auto, using(ded_io::proofs::Writes::writes))]
fn put_offer<K: Sink>(offer: Offer<'_>, out: &mut K) -> Result<(), SinkError>
    ensures bytes { Wrote result (K.told out.old) (K.told out.new) (offer_lines (offer_as offer.entry)) }
    ensures cause { HasCause (K.faults out.old) (K.faults out.new) result }
{
    match offer {
        Offer::None => Ok(()),
        Offer::Call { form, e, i } => put_member(word_of(form), e, i, out),
        Offer::Wait(choices) => put_choices(choices, out),
        Offer::Finish => out.put(b"  finish\n"),
        Offer::End => out.put(b"  end\n"),
        Offer::Abort { x } => put_line(b"  abort ", x as u64, out),
    }
}

// The word for a form of call.
fn word_of(form: CallForm) -> &'static [u8]
    ensures { result.now ≡ form_word form }
{
    match form {
        CallForm::Plain => b"  call ",
        CallForm::Conditional => b"  conditional-call ",
        CallForm::Timed => b"  timed-call ",
    }
}

// Appends one line for each choice of a wait.
#[tactic(auto, using(ded_io::proofs::Members::members))]
fn put_choices<K: Sink>(choices: &[Choice], out: &mut K) -> Result<(), SinkError>
    ensures bytes { Wrote result (K.told out.old) (K.told out.new) (each_text choice_line choices.now) }
    ensures cause { HasCause (K.faults out.old) (K.faults out.new) result }
{
    for choice in choices {
        match put_choice(*choice, out) {
            Ok(()) => {}
            Err(e) => return Err(e),
        }
    }
    Ok(())
}

// Appends the line of a choice.
fn put_choice<K: Sink>(choice: Choice, out: &mut K) -> Result<(), SinkError>
    ensures bytes { Wrote result (K.told out.old) (K.told out.new) (choice_line choice) }
    ensures cause { HasCause (K.faults out.old) (K.faults out.new) result }
{
    match choice {
        Choice::Accept { e, i } => put_member(b"  accept ", e, i, out),
        Choice::Else => out.put(b"  else\n"),
        Choice::Delay { k } => put_line(b"  delay ", k as u64, out),
        Choice::Terminate => out.put(b"  terminate\n"),
    }
}

// Appends a word, the member `i` of the entry `e`, and the end of the line.
#[tactic(auto, using(ded_io::proofs::Writes::writes))]
fn put_member<K: Sink>(word: &[u8], e: u32, i: i32, out: &mut K) -> Result<(), SinkError>
    ensures bytes { Wrote result (K.told out.old) (K.told out.new) (member_line word.now e i) }
    ensures cause { HasCause (K.faults out.old) (K.faults out.new) result }
{
    out.put(word)?;
    put_number(e as u64, out)?;
    out.put(b" ")?;
    put_signed(i, out)?;
    out.put(b"\n")
}

// Appends a word, a number, and the end of the line.
#[tactic(auto, using(ded_io::proofs::Writes::writes))]
pub(crate) fn put_line<K: Sink>(word: &[u8], n: u64, out: &mut K) -> Result<(), SinkError>
    ensures bytes { Wrote result (K.told out.old) (K.told out.new) (number_line word.now n) }
    ensures cause { HasCause (K.faults out.old) (K.faults out.new) result }
{
    out.put(word)?;
    put_number(n, out)?;
    out.put(b"\n")
}
