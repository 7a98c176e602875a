// The tree rule over the tuples of ATTR and INAS: that it holds, else the place of the first tuple that breaks it.
#![tactic(auto)]

pub mod due;
pub mod siblings;
pub mod tuple;
pub mod walk;

ghost use Rattle.std.specs.Prelude.{◌≡◌, true, false};
ghost use Rattle.base.specs.Verdict.{first_fault};
ghost use Rattle.fields.specs.Table.{head_of, tuple_of};
ghost use Rattle.fields.specs.Content.{fill};
ghost use Rattle.fields.specs.declared.Format.TheVariants.{Attr, AttrNew};
ghost use Rattle.rules.specs.Content.{inas_format};
ghost use Rattle.rules.specs.Trees.{attr_tree, attr_acts, inas_tree};
ghost use Rattle.tree.specs.Verdict.{faulty_tuple};

// The ATTR of a record that is stored or inserted: the whole rule.
pub fn attr_tree(b: &[u8]) -> Result<(), usize>
    requires { fill (head_of AttrNew) (tuple_of AttrNew) b.now ≡ true }
    ensures { result ≡ first_fault (faulty_tuple (attr_tree b.now)) }
{
    walk::check(b, true)
}

// The ATTR of a modify, in the first pass: PAIX, and parents that are deletes.
pub fn attr_acts(b: &[u8]) -> Result<(), usize>
    requires { fill (head_of Attr) (tuple_of Attr) b.now ≡ true }
    ensures { result ≡ first_fault (faulty_tuple (attr_acts b.now)) }
{
    walk::check(b, false)
}

// An INAS, inserted or deleted: the whole rule over the tuples behind its ten bytes.
pub fn inas_tree(b: &[u8]) -> Result<(), usize>
    requires { fill (head_of (inas_format false b.now)) (tuple_of (inas_format false b.now)) b.now ≡ true }
    ensures { result ≡ first_fault (faulty_tuple (inas_tree b.now)) }
{
    walk::check(&b[10..], true)
}
