// The auditor as C calls it.
ghost use Rattle.judged.specs.Number.{Audited};

use judged::audited;

#[unsafe(no_mangle)]
pub extern "C" fn depot_audit(history: &[u32]) -> u32
    ensures { Audited history.now result }
{
    audited(history)
}
