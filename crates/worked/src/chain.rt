// Calls one after another, each on the state that the one before it handed back, and on what it left.
ghost use Rattle.std.specs.Prelude.{◌≡◌};
ghost use Rattle.darts.specs.Kinds.{kind_is};
ghost use Rattle.worked.specs.Chain.{after, started, reduced, swept, undone, unfolded, stored as stored_of, left_of, left_is};

use check::expect;
use pyramid::{Kind, Outcome};

// What the last call left: what it handed back, and the slices.
#[derive(Clone, Copy)]
pub struct Run {
    outcome: Outcome,
    table: [u32; 8],
    history: [u32; 4],
    work: [u32; 32],
}

impl Run {
    // Start from a table of eight places. The work area has rubbish in it.
    pub fn start(darts: u32, base: [u32; 8]) -> Run
        ensures { after result ≡ started darts base }
    {
        let mut table = base;
        let mut history = [0; 4];
        let mut work = [9; 32];
        let outcome = pyramid::start(darts, &mut table, &mut history, &mut work);
        Run {
            outcome,
            table,
            history,
            work,
        }
    }

    pub fn reduce(mut self, kind: Kind, kernel: &[u32]) -> Run
        ensures { after result ≡ reduced (kind_is kind) kernel.now (after self) }
    {
        self.outcome = self.outcome.state.reduce(
            kind,
            kernel,
            &mut self.table,
            &mut self.history,
            &mut self.work,
        );
        self
    }

    pub fn sweep(mut self) -> Run
        ensures { after result ≡ swept (after self) }
    {
        self.outcome = self
            .outcome
            .state
            .sweep(&mut self.table, &mut self.history, &mut self.work);
        self
    }

    pub fn undo(mut self) -> Run
        ensures { after result ≡ undone (after self) }
    {
        self.outcome = self
            .outcome
            .state
            .undo(&mut self.table, &mut self.history, &mut self.work);
        self
    }

    pub fn unfold(mut self, level: u32) -> Run
        ensures { after result ≡ unfolded level (after self) }
    {
        self.outcome = self
            .outcome
            .state
            .unfold(level, &mut self.table, &mut self.history, &mut self.work);
        self
    }

    // No call: other numbers of vertices and faces in the state.
    pub fn store(mut self, vertices: u32, faces: u32) -> Run
        ensures { after result ≡ stored_of vertices faces (after self) }
    {
        self.outcome.state.vertices = vertices;
        self.outcome.state.faces = faces;
        self
    }

    // Expects of the last call this answer, its number and two places as document 01 gives them, this table and this history, and these numbers of
    // vertices and faces in the state.
    pub fn expect(
        &self,
        answer: (u32, usize, usize),
        table: [u32; 8],
        history: [u32; 4],
        stored: (u32, u32),
    )
        requires { left_of (after self.now) ≡ left_is answer table history stored }
    {
        match self.outcome.answer {
            Ok(()) => expect((0, 0, 0) == answer),
            Err(refusal) => expect((refusal.number(), refusal.place(), refusal.second()) == answer),
        }
        let state = self.outcome.state;
        expect(self.table == table);
        expect(self.history == history);
        expect((state.vertices, state.faces) == stored);
    }
}
