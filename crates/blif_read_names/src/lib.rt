// The declarations of a text: names (refusals 7 to 10), and the tables that building starts from
// (Quaigh's src/io/blif.rs: build_name_to_sig).
#![tactic(auto)]

ghost use Rattle.std.specs.Prelude.{◌≡◌, false, ◌++◌, ◌+◌, ◌*◌, ◌≤◌, ◌<◌, length, take};
ghost use Rattle.lists.specs.Lists.{zeros};
ghost use Rattle.network.specs.Sizes.{max_gates, max_outputs};
ghost use Rattle.blif_text.specs.Decls.{decls};
ghost use Rattle.blif_text.specs.Between.Places.{max_tokens, token_of};
ghost use Rattle.blif_text.specs.Between.Walk.{stmts_from, StmtsAt};
ghost use Rattle.blif_text.specs.Between.Blocks.{block_width};
ghost use Rattle.blif_declarations.specs.Between.Declarations.{NextIs};
ghost use Rattle.name_index.specs.Between.Index.{index_cells, entry_count};
ghost use Rattle.blif_reading.specs.Read.{too_large};
ghost use Rattle.blif_read_names.specs.Between.Naming.{InputsFit, InputsEntered, GateFits, GateDefined, CoverFits, CoverDefined, LatchFits, LatchStep, CoverStep, NamingSoFar, Steps};
ghost use Rattle.blif_read_names.specs.Between.Tables.{DefinedBy};

use blif_declarations::{Declaration, Next, next_declaration};
use blif_text::{Block, Run, put_block};
use lists::copy_cells;
use name_index::enter_name;
use refusals::{Refusal, refuse_if};
use signal::Signal;

// How many inputs, gates and outputs are declared.
#[derive(Clone, Copy)]
pub struct Declared {
    pub inputs: usize,
    pub gates: usize,
    pub outputs: usize,
}

// A walk that enters names: its place, and how many models, inputs, gates and outputs are declared before it.
#[derive(Clone, Copy)]
struct Walk {
    at: usize,
    models: usize,
    inputs: usize,
    gates: usize,
    outputs: usize,
}

// Enters names as inputs behind so many others, unless one is defined twice.
fn enter_inputs(text: &[u8], names: &[u32], index: &mut [u32], inputs: usize) -> Result<(), Refusal>
    requires { InputsFit text.now names.now index.old inputs }
    ensures { InputsEntered text.now names.now index.old (entry_count index.old) inputs
        index.new result }
{
    for (j, name) in names.iter().enumerate() {
        let signal = Signal::from_input((inputs + j) as u32);
        if !enter_name(text, index, *name, signal.a) {
            return Err(Refusal::DefinedTwice);
        }
    }
    Ok(())
}

// Copies names behind those of so many outputs.
fn copy_outputs(names: &[u32], out_names: &mut [u32], outputs: usize)
    requires { outputs + length names.now ≤ length out_names.old }
    ensures { take (outputs + length names.now) out_names.new
        ≡ take outputs out_names.old ++ names.now }
{
    copy_cells(names, out_names, outputs);
}

// Defines a gate by the name at a cell, and places its block, unless the name is defined twice.
fn define_gate(
    text: &[u8],
    index: &mut [u32],
    blocks: &mut [u32],
    gates: usize,
    cell: u32,
    block: Block,
) -> Result<(), Refusal>
    requires { GateFits text.now index.old gates cell block blocks.old }
    ensures { GateDefined text.now index.old (entry_count index.old) gates
        (token_of text.now cell) block blocks.old
        index.new blocks.new result }
{
    let signal = Signal::from_var(gates as u32);
    if !enter_name(text, index, cell, signal.a) {
        return Err(Refusal::DefinedTwice);
    }
    put_block(blocks, gates, block);
    Ok(())
}

// Defines a cover's gate by its last name, unless it has none or the name is defined twice.
fn define_last(
    text: &[u8],
    tokens: &[u32],
    index: &mut [u32],
    blocks: &mut [u32],
    gates: usize,
    block: Block,
) -> Result<(), Refusal>
    requires { CoverFits text.now tokens.now index.old gates block.first block.names blocks.old × (block.lines ≤ max_tokens) }
    ensures { CoverDefined text.now tokens.now index.old (entry_count index.old) gates block
        blocks.old
        index.new blocks.new result }
{
    if block.names == 0 {
        return Err(Refusal::NamesEmpty);
    }
    let last = block.first + block.names - 1;
    define_gate(text, index, blocks, gates, tokens[last], block)
}

// Defines a latch's gate by its second name, which stands behind the first.
fn define_latch(
    text: &[u8],
    tokens: &[u32],
    index: &mut [u32],
    blocks: &mut [u32],
    w: Walk,
    run: Run,
) -> Result<Walk, Refusal>
    requires { LatchFits text.now tokens.now index.old blocks.old w run }
    ensures { LatchStep text.now tokens.now index.old blocks.old
        index.new blocks.new w run result }
{
    let first = run.first;
    let block = Block {
        first,
        names: 0,
        lines: run.count,
    };
    let name = tokens[first + 1];
    let mut next = w;
    next.gates += 1;
    define_gate(text, index, blocks, w.gates, name, block)?;
    Ok(next)
}

// Defines a cover's gate by its last name.
fn define_cover(
    text: &[u8],
    tokens: &[u32],
    index: &mut [u32],
    blocks: &mut [u32],
    w: Walk,
    block: Block,
) -> Result<Walk, Refusal>
    requires { CoverFits text.now tokens.now index.old w.gates block.first block.names blocks.old × (block.lines ≤ max_tokens) }
    ensures { CoverStep text.now tokens.now index.old blocks.old
        index.new blocks.new w block result }
{
    let mut next = w;
    next.gates += 1;
    define_last(text, tokens, index, blocks, w.gates, block)?;
    Ok(next)
}

// Passes the next declaration: enters the names that it defines, or copies those of outputs.
fn define_declaration(
    text: &[u8],
    tokens: &[u32],
    index: &mut [u32],
    out_names: &mut [u32],
    blocks: &mut [u32],
    w: Walk,
    next: Next,
) -> Result<Walk, Refusal>
    requires naming_so_far { NamingSoFar text.now tokens.now (length tokens.now) index.old out_names.old blocks.old w
        × (w.at < length tokens.now) }
    requires next_is { NextIs text.now tokens.now (length tokens.now) w.at next.declaration next.at }
    ensures { Steps text.now tokens.now (length tokens.now)
        index.new out_names.new blocks.new w result }
{
    let declaration = next.declaration;
    let mut after = w;
    after.at = next.at;
    match declaration {
        Declaration::Model => {
            refuse_if(0 < w.models, Refusal::SecondModel)?;
            after.models = 1;
            Ok(after)
        }
        Declaration::End => {
            refuse_if(!(0 < w.models), Refusal::EndBeforeModel)?;
            Ok(after)
        }
        Declaration::Inputs(run) => {
            let first = run.first;
            let end = first + run.count;
            after.inputs += run.count;
            enter_inputs(text, &tokens[first..end], index, w.inputs)?;
            Ok(after)
        }
        Declaration::Outputs(run) => {
            let first = run.first;
            let end = first + run.count;
            after.outputs += run.count;
            copy_outputs(&tokens[first..end], out_names, w.outputs);
            Ok(after)
        }
        Declaration::Latch(run) => define_latch(text, tokens, index, blocks, after, run),
        Declaration::Cover(block) => define_cover(text, tokens, index, blocks, after, block),
        Declaration::None => Ok(after),
    }
}

// Enters every name that is defined into the index, and places the outputs' names and the blocks.
pub fn build_name_to_sig(
    text: &[u8],
    tokens: &[u32],
    index: &mut [u32],
    out_names: &mut [u32],
    blocks: &mut [u32],
) -> Result<Declared, Refusal>
    requires stmts_at { StmtsAt text.now tokens.now (length tokens.now) 0 × (length tokens.now ≤ max_tokens) }
    requires tokens_value { too_large (decls (stmts_from text.now tokens.now (length tokens.now) 0)) ≡ false }
    requires index_value { (index.old ≡ zeros index_cells) × (max_outputs ≤ length out_names.old) × (max_gates * block_width ≤ length blocks.old) }
    ensures { DefinedBy (decls (stmts_from text.now tokens.now (length tokens.now) 0)) text.now
        tokens.now (length tokens.now)
        index.new out_names.new blocks.new result }
{
    let mut w = Walk {
        at: 0,
        models: 0,
        inputs: 0,
        gates: 0,
        outputs: 0,
    };
    while w.at < tokens.len() {
        let next = next_declaration(text, tokens, w.at);
        w = define_declaration(text, tokens, index, out_names, blocks, w, next)?;
    }
    Ok(Declared {
        inputs: w.inputs,
        gates: w.gates,
        outputs: w.outputs,
    })
}
