// The lines of the sources.
ghost use Rattle.std.specs.Prelude.{◌≡◌, ◌<◌, ◌^◌, ◌++◌, IfOk, codes};
ghost use Rattle.std.specs.String.{string_bytes};
ghost use Rattle.run_sources.specs.Lines.{digits, generated_line, print_line, word_line};

use std::alloc::{AllocError, Global};

/// The last line of the prelude.
pub(crate) const ALL_LINE: &str =
    "let all = w0 + ',' + w1 + ',' + w2 + ',' + w3 + ',' + w4 + ',' + w5 + ',' + w6 + ',' + w7 + ',' + w8 + ',' + w9 + ',' + w10 + ',' + w11 + ',' + w12 + ',' + w13 + ',' + w14 + ',' + w15;\n";

/// The line of a string.
pub(crate) fn word_line(alloc: Global, i: u32, letters: &str) -> Result<String, AllocError>
    ensures { IfOk result (λ text. string_bytes text ≡ word_line i letters.now) }
{
    format!(in alloc; "const w{i} = '{letters}';\n")
}

/// The line of a kind, with the numbers of two strings and one more.
pub(crate) fn line(alloc: Global, kind: u32, a: u32, b: u32, c: u32) -> Result<String, AllocError>
    requires { c < 2 ^ 31 }
    ensures { IfOk result (λ text. string_bytes text ≡ generated_line kind a b c) }
{
    match kind {
        0 => format!(in alloc; "n = n + all.indexOf(w{a});\n"),
        1 => {
            let d = c + 20;
            format!(in alloc; "acc = (acc + w{a}.padStart({d}, w{b})).slice(-16);\n")
        }
        2 => format!(in alloc; "acc = (acc + w{a}.repeat({c})).slice(-16);\n"),
        3 => {
            format!(in alloc;
                "if (Symbol.for(w{a} + w{b}) === Symbol.for(w{b} + w{a})) {{ n = n + 1; }}\n"
            )
        }
        4 => format!(in alloc; "n = n + all.replaceAll(',', w{a}).length;\n"),
        _ => format!(in alloc;
            "n = n + all.split(',')[{a}].length + JSON.stringify(w{b}).length;\n"
        ),
    }
}

/// The last line of script j.
pub(crate) fn print_line(alloc: Global, j: u32) -> Result<String, AllocError>
    ensures { IfOk result (λ text. string_bytes text ≡ print_line j) }
{
    let tens = j / 10;
    let ones = j % 10;
    format!(in alloc; "print('{tens}{ones}', n, acc);\n")
}

/// The name of script j.
pub(crate) fn script_name(alloc: Global, j: u32) -> Result<String, AllocError>
    ensures { IfOk result (λ text. string_bytes text ≡ codes "gen-" ++ digits j) }
{
    let tens = j / 10;
    let ones = j % 10;
    format!(in alloc; "gen-{tens}{ones}")
}
