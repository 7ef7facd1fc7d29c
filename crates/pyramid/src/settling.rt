// The numbers of vertices and faces, put right once a call's work is done. Each call judges, works and settles, three lines: one function of the three over a
// closure would take every slice and hand it on, and is no plainer.
ghost use Rattle.std.specs.Prelude.{◌≡◌};
ghost use Rattle.pyramid.specs.Settling.{Settles, Settled};
ghost use Rattle.pyramid.specs.Values.{state_of, figures_with};

use crate::{Outcome, State};
use area::shape::contractions;

impl State {
    // The state with these numbers of vertices and faces.
    fn storing(self, vertices: u32, faces: u32) -> State
        ensures { state_of result ≡ figures_with (state_of self) vertices faces }
    {
        State {
            vertices,
            faces,
            ..self
        }
    }

    // What a call on this state hands back. Each contraction that it did took one vertex away and each removal one face; what it undid gave them back.
    // A refused call did none.
    pub fn settle(self, outcome: Outcome, history: &[u32]) -> Outcome
        requires { Settles (state_of self) outcome.state.operations history.now }
        ensures { Settled (state_of self) outcome history.now result }
    {
        let Outcome { state, answer } = outcome;
        let n = self.operations as usize;
        let m = state.operations as usize;
        if n <= m {
            let c = contractions(history, n, m);
            let r = m - n - c;
            let v = self.vertices - c as u32;
            let f = self.faces - r as u32;
            return Outcome {
                state: state.storing(v, f),
                answer,
            };
        }
        let c = contractions(history, m, n);
        let r = n - m - c;
        let v = self.vertices + c as u32;
        let f = self.faces + r as u32;
        Outcome {
            state: state.storing(v, f),
            answer,
        }
    }
}
