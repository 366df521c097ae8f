// What is to be said of the lines of a history, and its bytes.
ghost use Rattle.std.specs.Prelude.{◌≡◌, length};
ghost use Rattle.history.specs.Stream.{history_words};
ghost use Rattle.report.specs.Report.{Reported};

use auditor::audit::audit;
use auditor::finding::Finding;
use entries::beside::{ENTRY_WORDS, MOST_ENTRIES};
use history::entry::BAD;

#[derive(Clone, Copy)]
pub enum Said {
    // The first line that says no entry. Lines are numbered from 0.
    BadLine(u32),
    Found(Finding),
}

// What is to be said of so many lines, the words of which were stored.
pub fn report(words: &[u32], lines: usize) -> Said
    requires { length words.now ≡ history_words }
    ensures { Reported words.now lines result }
{
    if MOST_ENTRIES < lines {
        return Said::Found(Finding::TooMany);
    }
    if let Some(bad) = (0..lines).find(|&i| words[i * ENTRY_WORDS] == BAD) {
        return Said::BadLine(bad as u32);
    }
    let end = lines * ENTRY_WORDS;
    let found = audit(&words[..end]);
    Said::Found(found)
}
