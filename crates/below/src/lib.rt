// What stands right below a row of a table, read from the bytes.

#![tactic(auto)]

mod first;

ghost use Rattle.names.specs.Words.{rows_in};
ghost use Rattle.below.specs.Below.{At};

// What a walk asks of the rows below a row. `deep_access`: its first child's first child is `super.p` or `super[k]`, of that name;
// `deep_name`: the name of that child, whatever it is, 0 where there is none.
#[derive(Clone, Copy)]
pub struct Below {
    pub first_super: bool,
    pub first_access: bool,
    pub super_call: bool,
    pub deep_access: Option<usize>,
    pub deep_name: usize,
}

// A row of a table, by its number: one of rows that nest.
#[derive(Clone, Copy)]
pub struct Node<'a> {
    pub rows: &'a [u8],
    pub at: usize,
    pub ghost known: { At rows.now (rows_in rows.now) at },
}

// The words of a row are read by functions of `names`, which ask its bytes alone. They are no methods of `Node`: collect's loop, `late` of plan and
// `head_at` of emit_plan have a row's number, and would make a Node, with the proof that the rows nest, to read one word.
pub use names::words::{attr_at, end_at, kind_at, name_at};
