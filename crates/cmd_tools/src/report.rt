//! What a command writes and prints.

ghost use Rattle.std.specs.Prelude.{◌≡◌, [], ◌∷◌, IfOk};

use m36_outside::Text;
use m36_status::Set;
use m36_text::Name;
use m36_word::NoMemory;
use std::alloc::Global;
use std::marker::Model;

/// The files that a command writes, in order, and the text that it then puts: lines with their line
/// feeds.
#[derive(Drop)]
pub struct Report {
    files: Vec<Set>,
    text: Text,
}

impl Model for Report {
    ghost use Rattle.cmd_tools.specs.Reports.{ReportFields};

    ghost Value = { ReportFields };

    ghost view = { λ r. record { sets = r.files.items; text = r.text } };
}

impl Report {
    /// A report with a text and no file.
    pub fn of_text(alloc: Global, text: Text) -> Report
        ensures { result ≡ record { sets = []; text = text } }
    {
        Report {
            files: Vec::new(alloc),
            text,
        }
    }

    /// A report with a file and a text.
    pub fn of_file(alloc: Global, file: Set, text: Text) -> Result<Report, NoMemory>
        ensures { IfOk result (λ report. report ≡ record { sets = file ∷ []; text = text }) }
    {
        let mut files = Vec::new(alloc);
        files.push(file)?;
        Ok(Report { files, text })
    }

    /// The files that the command writes, in order. For `print` and `access` there are none.
    pub fn files(&self) -> &[Set]
        ensures { result.now ≡ self.now.sets }
    {
        self.files.as_slice()
    }

    /// The text that is put after the files are written: lines with their line feeds.
    pub fn text(&self) -> &[u8]
        ensures { result.now ≡ self.now.text }
    {
        self.text.bytes()
    }
}

/// A report with a file, of this name and content, and a text.
pub fn report_file(
    alloc: Global,
    name: &Name,
    content: Text,
    text: Text,
) -> Result<Report, NoMemory>
    ensures { IfOk result (λ report. report
        ≡ record { sets = record { name = name.now; content = content } ∷ []; text = text }) }
{
    let file = Set {
        name: name.copied(),
        content,
    };
    Report::of_file(alloc, file, text)
}
