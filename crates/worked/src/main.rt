// The worked examples K1, K3, K5, K7, K8, K10 and K11 of document 01, and both culprits, the lookups of K12 and the stored numbers of document 02, made by
// the calls one after another. `expect` asks a proof of each result, and stops the run where one fails.
#![tactic(auto)]

mod chain;
mod examples;
mod lookups;
mod stored;

fn main() {
    examples::kernels();
    examples::sweep_and_undo();
    examples::refused_at_the_top();
    examples::two_darts();
    examples::both_culprits();
    stored::right_numbers();
    stored::wrong_numbers();
    lookups::lookups();
}
