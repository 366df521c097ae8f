// What the auditor finds, as one number, for callers in other languages.
#![tactic(auto)]

ghost use Rattle.std.specs.Prelude.{◌≡◌, ◌<◌};
ghost use Rattle.entries.specs.Entries.{most_entries};
ghost use Rattle.judged.specs.Number.{entry_of, number_of, Audited};

use auditor::audit::audit;
use auditor::finding::Finding;

// The number of an answer is its low byte; the entry that it names stands above it.
const ENTRY: u32 = 256;

fn number_of(finding: Finding) -> u32
    requires { entry_of finding < most_entries }
    ensures { result ≡ number_of finding }
{
    match finding {
        Finding::Causal => 0,
        Finding::TooMany => 1,
        Finding::BadLength => 2,
        Finding::Refused(n) => 3 + ENTRY * n,
        Finding::Circle(n) => 4 + ENTRY * n,
        Finding::Low(n) => 5 + ENTRY * n,
    }
}

// What is to be said of a history, any words, as a number.
pub fn audited(history: &[u32]) -> u32
    ensures { Audited history.now result }
{
    let finding = audit(history);
    number_of(finding)
}
