// Tables of scripts, with their replies and the costs of their commands.

// A script, the text of its outcome, and the cost of each command.
#[derive(Drop)]
pub(super) struct Table {
    pub(super) script: &'static str,
    pub(super) text: &'static str,
    pub(super) costs: &'static [u64],
}

pub(super) const TABLES: &[Table] = &[
    LISTS,
    TEXTS,
    BITS,
    MAPS_AND_VALUES,
    A_LIST_AND_A_TEXT,
    BITS_AND_A_MAP,
    OF_NAMES,
    OF_KINDS,
    OF_PLACES_AND_BYTES,
];

// Each command on lists, where it is served.
const LISTS: Table = Table {
    script: "\
        script\nlist 4\nshow 4\npop 4\ninsert 4 0 7\ninsert 4 0 8\ninsert 4 2 9\nshow 4\nput 4 2 6\nremove 4 0\n\
        copy 4 5\npop 4\nlen 4\ntruncate 5 9\nshow 5\ntruncate 5 1\nshow 5\n",
    text: "\
        script 0\ndone\nnumbers -\nnothing\ndone\ndone\ndone\nnumbers 8 7 9\ndone\nnumber 8\ndone\nnumber 6\n\
        number 1\ndone\nnumbers 7 6\ndone\nnumbers 7\nended done\n",
    costs: &[0, 0, 0, 24, 24, 24, 0, 0, 0, 48, 0, 0, 0, 0, 0, 0],
};

const TEXTS: Table = Table {
    script: "\
        script\ntext 4\nshow 4\nappend 4 6263\nappend 4 -\nfront 4 97\nbyte 4 127\nshow 4\nlen 4\ncopy 4 5\ndrop 4\n\
        show 5\n",
    text: "\
        script 0\ndone\nbytes -\ndone\ndone\ndone\ndone\nbytes 6162637f\nnumber 4\ndone\ndone\nbytes 6162637f\n\
        ended done\n",
    costs: &[32, 0, 8, 0, 4, 4, 0, 0, 48, 0, 0],
};

// A set of capacity 0 has no word. A set of capacity 1 has 64 bits, of which `ones` and `has` see one.
const BITS: Table = Table {
    script: "\
        script\nbits 0 0\nshow 0\nbits 1 1\nshow 1\nset 1 9\nhas 1 9\nones 1\nshow 1\nset 1 0\nhas 1 0\nunset 1 9\n\
        show 1\nunion 1 1\ncopy 1 2\nones 2\nlen 2\n",
    text: "\
        script 0\ndone\nprinted -\ndone\nprinted 00000000\ndone\nfalse\nnumbers -\nprinted 00000010_00000000\ndone\n\
        true\ndone\nprinted 00000001\ndone\ndone\nnumbers 0\nnumber 1\nended done\n",
    costs: &[7, 0, 15, 0, 0, 0, 0, 0, 0, 0, 0, 0, 0, 15, 0, 0],
};

const MAPS_AND_VALUES: Table = Table {
    script: "\
        script\nmap 0\nbind 0 9 1\nbind 0 3 2\nshow 0\nbind 0 4000000000 3\nbind 0 500 4\nbind 0 7 5\nshow 0\n\
        find 0 3\nlen 0\nunbind 0 3\nunbind 0 3\nvalue 1 5\nstore 1 18446744073709551615\nload 1\ncopy 1 2\nshow 2\n",
    text: "\
        script 0\ndone\nnothing\nnothing\nnumbers 3 2 9 1\nnothing\nnothing\nnothing\n\
        numbers 3 2 7 5 9 1 500 4 4000000000 3\nnumber 2\nnumber 5\nnumber 2\nnothing\ndone\ndone\n\
        number 18446744073709551615\ndone\nnumber 18446744073709551615\nended done\n",
    costs: &[
        0, 256, 256, 0, 256, 256, 256, 0, 0, 0, 0, 0, 15, 0, 0, 15, 0,
    ],
};

// Worked examples.
pub(super) const A_LIST_AND_A_TEXT: Table = Table {
    script: "\
        script\nlist 1\npush 1 5\npush 1 6\nat 1 1\nat 1 2\nlist 1\ntext 2\nbyte 2 104\nbyte 2 200\nshow 2\npop 2\n",
    text: "\
        script 0\ndone\ndone\ndone\nnumber 6\nout of range\nname taken\ndone\ndone\nnot ascii\nbytes 68\nwrong kind\nended done\n",
    costs: &[0, 24, 24, 0, 0, 0, 32, 4, 0, 0, 0],
};

const BITS_AND_A_MAP: Table = Table {
    script: "\
        script\nbits 0 65\nset 0 0\nset 0 64\nones 0\nshow 0\nset 0 128\nbits 1 1\nunion 1 0\nones 1\nhas 1 64\nmap 2\nbind 2 9 1\n\
        bind 2 9 4\nfind 2 8\nshow 2\ncopy 2 3\nunbind 2 9\nshow 3\n",
    text: "\
        script 0\ndone\ndone\ndone\nnumbers 0 64\n\
        printed 00000001_00000000_00000000_00000000_00000000_00000000_00000000_00000000_00000001\nout of range\ndone\ndone\n\
        numbers 0\nfalse\ndone\nnothing\nnumber 1\nnothing\nnumbers 9 4\ndone\nnumber 4\nnumbers 9 4\nended done\n",
    costs: &[23, 0, 0, 0, 0, 0, 15, 0, 0, 0, 0, 256, 0, 0, 0, 256, 0, 0],
};

// Refusals, in their order: of names, of kinds, and then those of a command.
const OF_NAMES: Table = Table {
    script: "\
        script\nvalue 0 0\ntext 0\nbits 0 1\nmap 0\nvalue 0 1\ncopy 1 0\ncopy 0 0\nunion 1 0\nunion 0 1\nunion 0 0\n\
        drop 1\nshow 1\nlen 1\nlen 0\nload 0\n",
    text: "\
        script 0\ndone\nname taken\nname taken\nname taken\nname taken\nno such name\nname taken\nno such name\n\
        no such name\nwrong kind\nno such name\nno such name\nno such name\nwrong kind\nnumber 0\nended done\n",
    costs: &[15, 0, 0, 0, 0, 0, 0, 0, 0, 0, 0, 0, 0, 0, 0],
};

const OF_KINDS: Table = Table {
    script: "\
        script\nlist 0\nbits 1 1\nbyte 0 200\nfront 0 200\nappend 0 80\nset 0 64\nunset 0 64\nhas 0 64\nunion 1 0\n\
        union 0 1\nones 0\nbind 0 0 0\nfind 0 0\nunbind 0 0\nload 0\nstore 0 0\npush 1 0\ninsert 1 9 0\ntruncate 1 0\n",
    text: "\
        script 0\ndone\ndone\nwrong kind\nwrong kind\nwrong kind\nwrong kind\nwrong kind\nwrong kind\nwrong kind\n\
        wrong kind\nwrong kind\nwrong kind\nwrong kind\nwrong kind\nwrong kind\nwrong kind\nwrong kind\nwrong kind\n\
        wrong kind\nended done\n",
    costs: &[0, 15, 0, 0, 0, 0, 0, 0, 0, 0, 0, 0, 0, 0, 0, 0, 0, 0, 0],
};

const OF_PLACES_AND_BYTES: Table = Table {
    script: "\
        script\nlist 0\ninsert 0 1 0\nremove 0 0\nat 0 0\nput 0 0 0\ntext 1\nfront 1 128\nappend 1 6180\nlen 1\n\
        bits 2 64\nset 2 63\nunset 2 64\nhas 2 64\n",
    text: "\
        script 0\ndone\nout of range\nout of range\nout of range\nout of range\ndone\nnot ascii\nnot ascii\nnumber 0\n\
        done\ndone\nout of range\nfalse\nended done\n",
    costs: &[0, 0, 0, 0, 0, 32, 0, 0, 0, 15, 0, 0, 0],
};
