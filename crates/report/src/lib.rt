// The report's form (SPECIFICATION 13): a lent slice of `Release`, filled by one thin writer from the flat words that the proved steps fill.
#![tactic(auto)]

ghost use Rattle.std.specs.Prelude.{◌≡◌, ◌++◌, ◌<◌, ◌≤◌, ◌+◌, ◌*◌, length, drop};
ghost use Rattle.report_words.specs.Report.{release_at, releases_of};

use model::{Entry, Hash, Release, of_release, sizes};

// `release_at`
fn release_at(gone: &[u64], i: usize) -> Release
    requires { 9 * i + 8 < length gone.now }
    ensures { result ≡ release_at gone.now i }
{
    let k = sizes::RELEASE_WORDS * i;
    Release {
        entry: Entry {
            hash: Hash {
                a: gone[k],
                b: gone[k + 1],
                c: gone[k + 2],
                d: gone[k + 3],
            },
            owner: gone[k + of_release::OWNER],
            time: gone[k + of_release::TIME],
            height: gone[k + of_release::HEIGHT],
            estimate: gone[k + of_release::ESTIMATE],
        },
        reason: gone[k + of_release::REASON],
    }
}

// The first n places are the first n releases, the places after them are unchanged. Answers n.
pub fn write_report(report: &mut [Release], gone: &[u64], n: usize) -> usize
    requires { (n ≤ length report.old) × (9 * n ≤ length gone.now) }
    ensures { (result ≡ n) × (report.new ≡ releases_of n gone.now ++ drop n report.old) }
{
    for i in 0..n {
        report[i] = release_at(gone, i);
    }
    n
}
