// How `--review` names an asset or an asset parameter.
ghost use Rattle.std.specs.Prelude.{◌≡◌, ◌+◌, ◌*◌, ◌<◌, true};
ghost use Rattle.contract.specs.Table.{word_at, function_word, parameters_start};
ghost use Rattle.contract.specs.Decode.{each_from, packed_byte, packed_word, function_at, contract_of};
ghost use Rattle.printing.proofs.Writers.{Wrote, HasRoom};
ghost use Rattle.groups.specs.Groups.{numbers_name};
ghost use Rattle.reviews.specs.Holders.{function_text, parameter_text, holder_text};

use contract::{Contract, Function};
use printing::Writer;
use tables::Passed;

// The 32 bytes of row i of the parameters, those past the name's end too.
fn packed_bytes(table: &[u64], i: usize) -> [u8; Contract::NAME]
    ensures { result ≡ each_from 0 32 (packed_byte table.now (parameters_start + i * 5)) }
{
    let mut bytes = [0u8; Contract::NAME];
    for j in 0..Contract::NAME {
        bytes[j] = contract::packed_byte(table, i, j);
    }
    bytes
}

// The name in row i of the parameters.
fn put_packed(out: &mut Writer, table: &[u64], i: usize)
    requires { HasRoom 32 out.old }
    ensures written { Wrote out.old (packed_word table.now (parameters_start + i * 5)) out.new }
    ensures same_buffer { out.new.buffer.ghost_name ≡ out.old.buffer.ghost_name }
{
    let bytes = packed_bytes(table, i);
    let length = contract::packed_length(table, i).min(Contract::NAME as u64) as usize;
    out.put_bytes(&bytes[..length]);
}

// @STATE PARTY : FUNCTION
fn put_function(out: &mut Writer, terms: &Passed, n: usize)
    requires function { n < word_at terms.now.table.now 6 }
    requires room { HasRoom 101 out.old }
    ensures written { Wrote out.old (function_text (contract_of terms.now.table.now) (function_at terms.now.table.now n)) out.new }
    ensures same_buffer { out.new.buffer.ghost_name ≡ out.old.buffer.ghost_name }
{
    let row = contract::function_at(terms.table, n);
    out.put_word(words::AT_SIGN);
    out.put_name(
        terms.table,
        contract::STATES + row.state * contract::NAME_WORDS,
    );
    out.put_word(words::SPACE);
    out.put_name(
        terms.table,
        contract::PARTIES + row.party * contract::NAME_WORDS,
    );
    out.put_word(words::SPACE);
    out.put_word(words::COLON);
    out.put_word(words::SPACE);
    out.put_name(
        terms.table,
        contract::FUNCTIONS + n * Function::WORDS + Function::NAME,
    );
}

// @STATE PARTY : FUNCTION [NAME]
fn put_parameter(out: &mut Writer, terms: &Passed, n: usize, j: usize)
    requires function { n < word_at terms.now.table.now 6 }
    requires parameter { j < function_word terms.now.table.now n 4 }
    requires room { HasRoom 136 out.old }
    ensures written { Wrote out.old (parameter_text (contract_of terms.now.table.now) (function_at terms.now.table.now n) j) out.new }
    ensures same_buffer { out.new.buffer.ghost_name ≡ out.old.buffer.ghost_name }
{
    put_function(out, terms, n);
    out.put_word(words::SPACE);
    out.put_word(words::OPEN_BRACKET);
    put_packed(out, terms.table, n * Function::NAMES + Function::VALUES + j);
    out.put_word(words::CLOSE_BRACKET);
}

// The asset or the asset parameter with number k.
pub(crate) fn put_holder(out: &mut Writer, terms: &Passed, k: usize)
    requires name { numbers_name (contract_of terms.now.table.now) k ≡ true }
    requires room { HasRoom 136 out.old }
    ensures written { Wrote out.old (holder_text (contract_of terms.now.table.now) k) out.new }
    ensures same_buffer { out.new.buffer.ghost_name ≡ out.old.buffer.ghost_name }
{
    if k < Contract::ASSETS {
        out.put_name(terms.table, contract::ASSETS + k * contract::NAME_WORDS);
        return;
    }
    let place = k - Contract::ASSETS;
    let n = place / Function::PARAMETERS;
    put_parameter(out, terms, n, place % Function::PARAMETERS);
}
