// Positions of species nodes, by which one subtraction tells whether a place lies at or below another: a node and all below it
// have a run of positions, which starts with the node's own.
ghost use Rattle.nesting.specs.Runs.{Unshared, Shared, Offsets, Settled, Laid};

// Where each node's run starts, how long it is, and where in it the run of the node's first child starts, which is the node's turn.
#[derive(Drop)]
pub(crate) struct Positions<const N: usize> {
    pub(crate) starts: [u16; N],
    pub(crate) runs: [u16; N],
    pub(crate) turns: [u16; N],
}

impl<const N: usize> Positions<N> {
    // How long each node's run is, and where in its parent's it starts, from the last node to the first: children come after their
    // parent, so a node's own run is known when it is added to its parent's.
    #[tactic(auto, using(crate::proofs::Runs::parent_low))]
    fn share_runs(&mut self, parents: &[u16])
        requires { Unshared parents.now self.old.starts self.old.runs self.old.turns }
        ensures { Shared parents.now 1 self.new.starts self.new.runs self.new.turns }
    {
        for i in (1..parents.len()).rev() {
            let u = parents[i] as usize;
            let s = self.runs[u];
            self.starts[i] = s;
            self.turns[u] = s;
            self.runs[u] = s + self.runs[i];
        }
    }

    // Positions for all nodes, into tables that have room for them: 0 in the first and 1 in the second for each.
    pub(crate) fn place_nodes(&mut self, parents: &[u16])
        requires { Unshared parents.now self.old.starts self.old.runs self.old.turns }
        ensures { Laid parents.now self.new.starts self.new.runs self.new.turns }
    {
        self.share_runs(parents);
        place_runs(parents, &mut self.starts);
    }
}

// Where each node's run starts, once it is known where in its parent's run it starts.
#[tactic(auto, using(crate::proofs::Runs::parent_low))]
fn place_runs(parents: &[u16], starts: &mut [u16])
    requires { Offsets parents.now starts.old }
    ensures { Settled parents.now starts.old starts.new }
{
    for i in 1..parents.len() {
        let u = parents[i] as usize;
        starts[i] += starts[u];
    }
}
