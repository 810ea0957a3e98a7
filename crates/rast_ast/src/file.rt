// Files and their items.
use crate::form::Form;
use crate::name::Name;
use crate::process::{By, Proc};
use crate::term::Lin;
use crate::type_expr::TypeExpr;
use sqlite_items::Items;

/// A file: whether it begins with `explicit`, and its items in order.
#[derive(Debug, Drop)]
pub struct File {
    pub explicit: bool,
    pub items: Items<Item>,
}

/// An item of a file.
#[derive(Debug, Drop)]
pub enum Item {
    /// `type a{n}.. = A`
    Def {
        name: Name,
        params: Items<Name>,
        body: TypeExpr,
    },
    /// `decl f{n}.. : (y : A).. |{q}- (x : B)`
    Decl {
        name: Name,
        params: Items<Name>,
        used: Items<Channel>,
        potential: Option<Lin>,
        provided: Channel,
    },
    /// `proc x <- f{n}.. y.. = P`
    Proc {
        channel: Name,
        name: Name,
        params: Items<Name>,
        used: Items<Name>,
        body: Proc,
    },
    /// `eq{n}.. if F : A = B by ..`
    Eq {
        params: Items<Name>,
        premise: Option<Form>,
        left: TypeExpr,
        right: TypeExpr,
        by: Option<By>,
    },
    /// `exec f`
    Exec {
        name: Name,
    },
}

/// A channel of a declaration: its name and its type.
#[derive(Debug, Drop)]
pub struct Channel {
    pub name: Name,
    pub body: TypeExpr,
}
