// The text of what a task has written.

ghost use Rattle.std.specs.Prelude.{◌≡◌, ◌<◌, ◌+◌, ◌++◌, IfSome, MatchOption, codes, drop, length, position, take};
ghost use Rattle.ded_io.specs.Counts.{HasCause};
ghost use Rattle.ded_io.specs.Written.{◌⧺◌, Wrote};
ghost use Rattle.ded_io.specs.pages.Pages.{Drew, over};
ghost use Rattle.seq_file.specs.text_lines.Lines.{is_line_end};
ghost use Rattle.debug_run.specs.texts.OutputText.{angle_line, output_text};

use ded_io::pages::Page;
use ded_io::{Sink, SinkError};

/// Writes what a task has written, in few writes: each finished line behind a bar, and the last one, where it is not finished and not
/// empty, behind an angle. Each byte is passed once.
pub fn put_output<K: Sink>(output: &[u8], out: &mut K) -> Result<(), SinkError>
    ensures bytes { Wrote result (K.told out.old) (K.told out.new) (output_text output.now) }
    ensures cause { HasCause (K.faults out.old) (K.faults out.new) result }
{
    let mut page = Page::new();
    put_lines(output, &mut page, out);
    page.close(out)
}

// Puts the lines of an output on a page.
fn put_lines<K: Sink>(output: &[u8], page: &mut Page, out: &mut K)
    ensures { Drew (over page.old (K.told out.old) (K.faults out.old)) (over page.new (K.told out.new) (K.faults out.new)) (output_text output.now) }
{
    let mut rest = output;
    while let Some((line, behind)) = cut_line(rest) {
        put_finished(line, page, out);
        rest = behind;
    }
    put_unfinished(rest, page, out);
}

// The first line with the line feed that ends it, and what stands behind it. `None` where there is no line feed.
#[tactic(auto, using(crate::proofs::texts::Outputting::first_lines))]
fn cut_line(output: &[u8]) -> Option<(&[u8], &[u8])>
    ensures text { MatchOption result (output_text output.now ≡ angle_line output.now)
        (λ x. output_text output.now ≡ (codes "| " ⧺ x.0.now) ++ output_text x.1.now) }
    ensures less { IfSome result (λ x. length x.1.now < length output.now) }
{
    match line_end(output) {
        Some(n) => Some((line(output, n), behind(output, n))),
        None => None,
    }
}

// The place of the first line feed.
fn line_end(output: &[u8]) -> Option<usize>
    ensures is { result ≡ position is_line_end output.now }
    ensures within { IfSome result (λ n. n < length output.now) }
{
    output.iter().position(|b| *b == b'\n')
}

// What stands before the place, and there.
fn line(output: &[u8], n: usize) -> &[u8]
    requires { n < length output.now }
    ensures { result.now ≡ take (n + 1) output.now }
{
    &output[..n + 1]
}

// What stands behind the place.
fn behind(output: &[u8], n: usize) -> &[u8]
    requires { n < length output.now }
    ensures { result.now ≡ drop (n + 1) output.now }
{
    &output[n + 1..]
}

// Puts a finished line, which has its line feed, behind a bar.
#[tactic(auto, using(ded_io::proofs::pages::Drawn::drawn))]
fn put_finished<K: Sink>(line: &[u8], page: &mut Page, out: &mut K)
    ensures { Drew (over page.old (K.told out.old) (K.faults out.old)) (over page.new (K.told out.new) (K.faults out.new)) (codes "| " ⧺ line.now) }
{
    page.put(b"| ", out);
    page.put(line, out);
}

// Puts a line that is not finished behind an angle, and nothing where it is empty.
#[tactic(auto, using(ded_io::proofs::pages::Drawn::drawn))]
fn put_unfinished<K: Sink>(line: &[u8], page: &mut Page, out: &mut K)
    ensures { Drew (over page.old (K.told out.old) (K.faults out.old)) (over page.new (K.told out.new) (K.faults out.new)) (angle_line line.now) }
{
    if !line.is_empty() {
        page.put(b"> ", out);
        page.put(line, out);
        page.put(b"\n", out);
    }
}
