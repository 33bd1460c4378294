//! Bodies that a table lends.

ghost use Rattle.std.specs.Prelude.{◌≡◌};
ghost use Rattle.code_table.specs.Lent.{lent_body};

use cil_code::Body;

/// A decoded body: the one that the table keeps, or one of its own. It stands for its body.
#[derive(Drop)]
pub enum Lent<'a> {
    Kept(&'a Body),
    Own(Body),
}

impl Lent<'_> {
    /// The body that it stands for.
    pub fn body(&self) -> &Body
        ensures { result.now ≡ lent_body self.now }
    {
        match self {
            Lent::Kept(body) => body,
            Lent::Own(body) => body,
        }
    }
}
