// The sizes: refusal 6 (Quaigh has no sizes).
#![tactic(auto)]

ghost use Rattle.std.specs.Prelude.{◌≡◌, ◌+◌, ◌-◌, ◌*◌, ◌≤◌, length};
ghost use Rattle.network.specs.Between.Sizes.{WithinSizes};
ghost use Rattle.blif_text.specs.Decls.{decls};
ghost use Rattle.blif_text.specs.Between.Places.{max_tokens};
ghost use Rattle.blif_text.specs.Between.Walk.{stmts_from, StmtsAt};
ghost use Rattle.network.specs.Sizes.{over_sizes};
ghost use Rattle.blif_reading.specs.Read.{added, too_large};
ghost use Rattle.blif_read_sizes.specs.Between.Sizes.{Few, sizes_of, Added};

use blif_declarations::{Declaration, next_declaration};
use network::{MAX_GATES, MAX_INPUTS, MAX_OUTPUTS, MAX_PINS};

// How many inputs, outputs, gates and pins are declared.
#[derive(Clone, Copy)]
struct Sizes {
    inputs: usize,
    outputs: usize,
    gates: usize,
    pins: usize,
}

// The gates of a cover with so many lines.
#[tactic(auto, unfolding(blif_reading::specs::Read::added))]
fn cover_gates(lines: usize) -> usize
    requires { lines ≤ max_tokens }
    ensures { result ≡ 1 + added lines }
{
    if 1 < lines { 1 + lines } else { 1 }
}

// The pins of a cover with so many names, its own among them, and lines.
fn cover_pins(names: usize, lines: usize) -> usize
    requires { (names ≤ max_tokens) × (lines ≤ max_tokens) }
    ensures { result ≡ (lines + 1) * (names - 1 + 2) }
{
    (lines + 1) * (names.saturating_sub(1) + 2)
}

// The sizes with one more declaration.
#[tactic(auto, unfolding(blif_reading::specs::Read::added))]
fn count_declaration(w: Sizes, d: Declaration) -> Sizes
    requires { WithinSizes w.inputs w.outputs w.gates w.pins × Few d }
    ensures { Added w (sizes_of d) result }
{
    let mut sizes = w;
    match d {
        Declaration::Inputs(run) => sizes.inputs += run.count,
        Declaration::Outputs(run) => sizes.outputs += run.count,
        Declaration::Latch(_) => {
            sizes.gates += 1;
            sizes.pins += 3;
        }
        Declaration::Cover(block) => {
            sizes.gates += cover_gates(block.lines);
            sizes.pins += cover_pins(block.names, block.lines);
        }
        Declaration::Model | Declaration::End | Declaration::None => {}
    }
    sizes
}

// Whether one of the sizes is passed.
fn is_past(w: Sizes) -> bool
    ensures { result ≡ over_sizes w.inputs w.outputs w.gates w.pins }
{
    MAX_INPUTS < w.inputs || MAX_OUTPUTS < w.outputs || MAX_GATES < w.gates || MAX_PINS < w.pins
}

// Whether a size is passed (refusal 6).
pub fn too_large(text: &[u8], tokens: &[u32]) -> bool
    requires { StmtsAt text.now tokens.now (length tokens.now) 0 × (length tokens.now ≤ max_tokens) }
    ensures { result ≡ too_large (decls (stmts_from text.now tokens.now (length tokens.now) 0)) }
{
    let mut sizes = Sizes {
        inputs: 0,
        outputs: 0,
        gates: 0,
        pins: 0,
    };
    let mut at = 0;
    while at < tokens.len() {
        let next = next_declaration(text, tokens, at);
        let declaration = next.declaration;
        sizes = count_declaration(sizes, declaration);
        if is_past(sizes) {
            return true;
        }
        at = next.at;
    }
    false
}
