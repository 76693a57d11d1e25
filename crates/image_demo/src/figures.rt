//! What storing and extracting an image took, in figures.

ghost use Rattle.std.specs.Prelude.{◌≡◌, ◌++◌, IfOk, OnOk, string_bytes};
ghost use Rattle.dsy_base.specs.Counts.{CountsFaults};
ghost use Rattle.dsy_base.specs.Texts.{Puts};
ghost use Rattle.image_demo.specs.Figures.{figure_line, text_of_figures};

use dsy_base::fault::IoFault;
use dsy_base::sink::Sink;
use std::alloc::{AllocError, Global};

/// The figures of storing and extracting an image. All but the bytes are numbers of entries.
#[derive(Clone, Copy, Debug, PartialEq, Eq)]
pub struct Figures {
    pub bytes: u64,
    pub chunks: u64,
    /// Different chunks.
    pub distinct: u64,
    /// Entries that were right in zeros.
    pub kept: u64,
    /// Entries whose bytes stood elsewhere in the target.
    pub copied: u64,
    /// Different chunks that the seed gave.
    pub seeded: u64,
    /// Different chunks that the store gave.
    pub fetched: u64,
}

// A line of a figure.
fn line(alloc: Global, label: &str, n: u64) -> Result<String, AllocError>
    ensures { IfOk result (λ t. string_bytes t ≡ figure_line label.now n) }
{
    format!(in alloc; "{label}{n}\n")
}

// Adds a line of a figure.
fn push_line(alloc: Global, text: &mut String, label: &str, n: u64) -> Result<(), AllocError>
    ensures { OnOk result (string_bytes text.new ≡ string_bytes text.old ++ figure_line label.now n) }
{
    let line = line(alloc, label, n)?;
    text.push_str(line.as_str())?;
    Ok(())
}

impl Figures {
    // A line a figure.
    fn text(&self, alloc: Global) -> Result<String, AllocError>
        ensures { IfOk result (λ t. string_bytes t ≡ text_of_figures self.now) }
    {
        let mut text = line(alloc, "bytes ", self.bytes)?;
        push_line(alloc, &mut text, "chunks ", self.chunks)?;
        push_line(alloc, &mut text, "distinct ", self.distinct)?;
        push_line(alloc, &mut text, "kept ", self.kept)?;
        push_line(alloc, &mut text, "copied ", self.copied)?;
        push_line(alloc, &mut text, "seeded ", self.seeded)?;
        push_line(alloc, &mut text, "fetched ", self.fetched)?;
        Ok(text)
    }

    /// Puts a line a figure.
    pub fn put<S: Sink>(&self, alloc: Global, out: &mut S) -> Result<(), IoFault>
        ensures bytes { Puts (text_of_figures self.now) (S.output out.old).taken (S.output out.new).taken result }
        ensures faults { CountsFaults IoFault.Failed IoFault.Memory (S.output out.old).faults
            (S.output out.new).faults result }
    {
        match self.text(alloc) {
            Ok(text) => out.put(text.as_bytes()),
            Err(_) => Err(IoFault::Memory),
        }
    }
}
