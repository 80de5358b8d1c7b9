// Islands: the buses that lines join, numbered in the order of each island's first bus.
#![tactic(auto)]

ghost use Rattle.std.specs.Prelude.{◌≡◌, ℕ, ◌<◌, ◌≤◌, Some, None, slice_index_or};
ghost use Rattle.real.specs.Each.{each};
ghost use Rattle.islands.specs.Forest.{Forest, Grown, joined_root, or_insert};
ghost use Rattle.islands.specs.Islands.{Ends, island_of, label_by, labels_of, label_table};

// The root above `node`. Each bus passed is hung one place higher on the way. The loop climbs, and counts nothing.
fn find(parent: &mut [usize; 32], node: usize) -> usize
    requires { (node < 32) × Grown parent.old }
    ensures { (result < 32) × ((rank root : ℕ → ℕ) → Forest rank root parent.old → (result ≡ root node) × Forest rank root parent.new) }
{
    let mut node = node;
    while parent[node] != node {
        let above = parent[node];
        parent[node] = parent[above];
        node = parent[node];
    }
    node
}

// Each bus alone: its own root.
fn alone() -> [usize; 32]
    ensures { Forest (λ i. 0) (λ i. i) result }
{
    std::array::from_fn(|i| i)
}

// One line: the root of `to` is hung below the root of `from`.
fn join(parent: &mut [usize; 32], from: usize, to: usize)
    requires { (from < 32) × (to < 32) × Grown parent.old }
    ensures { (rank root : ℕ → ℕ) → Forest rank root parent.old → (lifted : ℕ → ℕ) × Forest lifted (joined_root root from to) parent.new }
{
    let ra = find(parent, from);
    let rb = find(parent, to);
    if ra != rb {
        parent[rb] = ra;
    }
}

fn join_all(br_from: &[usize], br_to: &[usize]) -> [usize; 32]
    requires { Ends 32 br_from.now br_to.now }
    ensures { (rank : ℕ → ℕ) × Forest rank (island_of br_from.now br_to.now) result }
{
    let mut parent = alone();
    for k in 0..br_from.len() {
        join(&mut parent, br_from[k], br_to[k]);
    }
    parent
}

// The label of each root met so far, and the label that comes next.
#[derive(Clone, Copy, Debug)]
struct Labels {
    of: [Option<usize>; 32],
    next: usize,
}

// The label of a root. One met for the first time takes the next.
fn or_insert(labels: &mut Labels, root: usize) -> usize
    requires { (root < 32) × (labels.old.next ≤ 32) }
    ensures after { labels.new ≡ or_insert labels.old root }
    ensures label { slice_index_or labels.new.of root None ≡ Some result }
{
    if let Some(label) = labels.of[root] {
        return label;
    }
    let label = labels.next;
    labels.of[root] = Some(label);
    labels.next += 1;
    label
}

fn label_all(n: usize, parent: [usize; 32]) -> [usize; 32]
    requires { (n ≤ 32) × Grown parent }
    ensures { (rank root : ℕ → ℕ) → Forest rank root parent → result ≡ label_table n (each n (label_by root)) }
{
    let mut parent = parent;
    let mut labels = Labels {
        of: [None; 32],
        next: 0,
    };
    let mut out = [0usize; 32];
    for bus in 0..n {
        let root = find(&mut parent, bus);
        out[bus] = or_insert(&mut labels, root);
    }
    out
}

pub fn dense_islands(n: usize, br_from: &[usize], br_to: &[usize]) -> [usize; 32]
    requires { (n ≤ 32) × Ends n br_from.now br_to.now }
    ensures { result ≡ label_table n (labels_of n br_from.now br_to.now) }
{
    label_all(n, join_all(br_from, br_to))
}
