// Tests of scripts and sources through the words, over streams in memory: the whole input and the whole output.
use super::{Asked, CALLS, ends_so};
use std::test::Fail;

// The words, the input and the output.
type Row = (&'static [&'static str], &'static str, &'static str);

const ONE: &str = "\
script\nlist 1\npush 1 5\npush 1 6\nat 1 1\nat 1 2\nlist 1\ntext 2\nbyte 2 104\nbyte 2 200\nshow 2\npop 2\n";

const ONE_TOLD: &str = "\
script 0\ndone\ndone\ndone\nnumber 6\nout of range\nname taken\ndone\ndone\nnot ascii\nbytes 68\nwrong kind\nended done\n";

// The same script twice.
const TWO: &str = "\
script\nlist 1\npush 1 5\npush 1 6\nat 1 1\nat 1 2\nlist 1\ntext 2\nbyte 2 104\nbyte 2 200\nshow 2\npop 2\n\
script\nlist 1\npush 1 5\npush 1 6\nat 1 1\nat 1 2\nlist 1\ntext 2\nbyte 2 104\nbyte 2 200\nshow 2\npop 2\n";

const TWO_TOLD: &str = "\
script 0\ndone\ndone\ndone\nnumber 6\nout of range\nname taken\ndone\ndone\nnot ascii\nbytes 68\nwrong kind\nended done\n\
script 1\ndone\ndone\ndone\nnumber 6\nout of range\nname taken\ndone\ndone\nnot ascii\nbytes 68\nwrong kind\nended done\n";

const BITS_AND_A_MAP: &str = "\
script\nbits 0 65\nset 0 0\nset 0 64\nones 0\nshow 0\nset 0 128\nbits 1 1\nunion 1 0\nones 1\nhas 1 64\nmap 2\nbind 2 9 1\n\
bind 2 9 4\nfind 2 8\nshow 2\ncopy 2 3\nunbind 2 9\nshow 3\n";

const BITS_AND_A_MAP_TOLD: &str = "\
script 0\ndone\ndone\ndone\nnumbers 0 64\n\
printed 00000001_00000000_00000000_00000000_00000000_00000000_00000000_00000000_00000001\nout of range\ndone\ndone\n\
numbers 0\nfalse\ndone\nnothing\nnumber 1\nnothing\nnumbers 9 4\ndone\nnumber 4\nnumbers 9 4\nended done\n";

const SOURCES: &str = "let a = 1;\n{\nlet a = b;\n}\n%%\na + ;\n";

const SOURCES_TOLD: &str = "source 0\nundefined b\nshadowed a\nsource 1\nsyntax error at 4\n";

// Arenas over a region have 48 bytes less than the region.
const ROWS: &[Row] = &[
    (&["scripts", "1"], ONE, ONE_TOLD),
    (
        &["scripts", "1", "fixed", "48", "1"],
        ONE,
        "script 0\ndone\nended full\n",
    ),
    (&["scripts", "1", "fixed", "144", "1"], ONE, ONE_TOLD),
    (&["scripts", "1", "keep", "0"], ONE, ONE_TOLD),
    (&["scripts", "1"], BITS_AND_A_MAP, BITS_AND_A_MAP_TOLD),
    (&["scripts", "1"], TWO, TWO_TOLD),
    (&["scripts", "2"], TWO, TWO_TOLD),
    (&["scripts", "64"], TWO, TWO_TOLD),
    (
        &["scripts", "1"],
        "script\nbits 0 4294967295\nbits 1 1\n",
        "script 0\nended refused\n",
    ),
    (&["scripts", "1"], "", ""),
    (&["lint", "2"], SOURCES, SOURCES_TOLD),
    (
        &["lint", "1"],
        "let a = a; let a = 2;",
        "source 0\nundefined a\nredefined a\n",
    ),
    (&["lint", "1"], "", "source 0\n"),
];

#[test]
fn scripts_and_sources_by_their_words(rt: HostRuntime) -> Result<(), Fail> {
    for (words, text, told) in ROWS {
        let asked = Asked {
            words,
            text: text.as_bytes(),
            given: 7,
            taken: 5,
            ..CALLS
        };
        ends_so(&rt, &asked, (0, 0, told.as_bytes()), text)?;
    }
    Ok(())
}
