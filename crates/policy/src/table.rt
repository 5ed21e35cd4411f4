// Counts as bytes, 255 for unlimited, and 32 of them, one for each name: needs, slips and policies alike.
ghost use Rattle.std.specs.Prelude.{◌≡◌};
ghost use Rattle.policy.specs.Bytes.{fits_bytes, more, none, slip_counts};

// The counts with a name `times` more; 255 stands for what a byte cannot hold, and there is no name above 31.
pub fn add(mut counts: [u8; 32], name: u8, times: u8) -> [u8; 32]
    ensures { result ≡ more counts name times }
{
    let at = usize::from(name);
    if at < counts.len() {
        counts[at] = counts[at].saturating_add(times);
    }
    counts
}

// The counts of `n` slip entries from `at`, as they stand, up to the first that is none.
#[tactic(auto, using(crate::proofs::Tables::slips))]
pub fn slip_counts(tree: &[u8], at: usize, n: u8) -> [u8; 32]
    ensures { result ≡ slip_counts tree.now n at none }
{
    let mut counts = [0; 32];
    let mut rest = tree.get(at..).unwrap_or(&[]);
    for _ in 0..n {
        let [name, count, others @ ..] = rest else {
            return counts;
        };
        let name = usize::from(*name);
        if 32 <= name {
            return counts;
        }
        counts[name] = *count;
        rest = others;
    }
    counts
}

// No count is above what is allowed: one comparison for needs and slips, against slips and policies.
pub fn fits_all(counts: [u8; 32], allowed: [u8; 32]) -> bool
    ensures { result ≡ fits_bytes counts allowed }
{
    counts
        .iter()
        .zip(&allowed)
        .all(|(count, most)| count <= most)
}
