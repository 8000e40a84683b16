// How many methods with a body and how many statements classes have, against the limits. Trees of classes stand below; the
// table above.
ghost use Rattle.std.specs.Prelude.{◌≡◌, ◌≤◌, ◌-◌, ◌^◌, ◌↔◌, IsTrue, length, min};
ghost use Rattle.jimple_tree.specs.Bodies.{bodied, all_stmts};
ghost use Rattle.clean_base.specs.Limits.{most_methods, most_stmts};
ghost use Rattle.class_table.specs.Methods.{all_methods, stmts_in};

use clean_base::limits::{MOST_METHODS, MOST_STMTS};
use jimple_tree::{Class, Method, stmts_of};

// The methods with a body.
fn bodied_in(methods: &[Method]) -> usize
    ensures { result ≡ length (bodied methods.now) }
{
    let mut count = 0;
    for method in methods {
        if method.body.is_some() {
            count += 1;
        }
    }
    count
}

// The methods with a body, or the highest number where they are more.
fn methods_in(classes: &[Class]) -> usize
    ensures { result ≡ min (length (all_methods classes.now)) (2 ^ 64 - 1) }
{
    let mut total: usize = 0;
    for class in classes {
        total = total.saturating_add(bodied_in(class.methods.as_slice()));
    }
    total
}

// The statements, or the highest number where they are more.
fn stmts_of_methods(methods: &[Method]) -> usize
    ensures { result ≡ min (length (all_stmts methods.now)) (2 ^ 64 - 1) }
{
    let mut total: usize = 0;
    for method in methods {
        total = total.saturating_add(stmts_of(method).len());
    }
    total
}

/// The statements of all bodies, or the highest number where they are more.
pub fn stmts_of_classes(classes: &[Class]) -> usize
    ensures { result ≡ min (length (stmts_in classes.now)) (2 ^ 64 - 1) }
{
    let mut total: usize = 0;
    for class in classes {
        total = total.saturating_add(stmts_of_methods(class.methods.as_slice()));
    }
    total
}

/// Whether the classes have as many methods with a body as there is room for, or fewer.
pub fn has_few_methods(classes: &[Class]) -> bool
    ensures { IsTrue result ↔ (length (all_methods classes.now) ≤ most_methods) }
{
    methods_in(classes) <= MOST_METHODS
}

/// Whether the classes have as many statements as there is room for, or fewer.
pub fn has_few_stmts(classes: &[Class]) -> bool
    ensures { IsTrue result ↔ (length (stmts_in classes.now) ≤ most_stmts) }
{
    stmts_of_classes(classes) <= MOST_STMTS
}
