//! What no clause says: that calls succeed, and where chains of variables lead.
use crate::common::expect;
use au_term::NoMemory;
use binding_array::{BindingArray, BindingCell};
use std::process::Abort;
use std::test::Fail;

fn grow(array: &mut BindingArray, to: usize) -> Result<(), NoMemory> {
    array.grow(to)
}

/// Binds a free variable to no variable.
fn bind(rt: &impl Abort, array: &mut BindingArray, variable: u32, value: i64) -> Result<(), Fail> {
    assert!(rt; (variable as usize) < array.len());
    match array.get(variable) {
        None => array.bind(variable, BindingCell::Int(value)),
        Some(_) => Err("bound")?,
    }
    Ok(())
}

/// Binds a free variable to a smaller one.
fn link(rt: &impl Abort, array: &mut BindingArray, variable: u32, older: u32) -> Result<(), Fail> {
    assert!(rt; (variable as usize) < array.len());
    assert!(rt; older < variable);
    match array.get(variable) {
        None => array.bind(variable, BindingCell::Var(older)),
        Some(_) => Err("bound")?,
    }
    Ok(())
}

fn free(rt: &impl Abort, array: &mut BindingArray, variable: u32) {
    assert!(rt; (variable as usize) < array.len());
    array.free(variable);
}

fn end(rt: &impl Abort, array: &BindingArray, variable: u32) -> BindingCell {
    assert!(rt; (variable as usize) < array.len());
    array.follow(variable)
}

/// The chain that each of the first four variables begins ends here.
fn expect_ends(rt: &impl Abort, array: &BindingArray, ends: [BindingCell; 4]) {
    for variable in 0..4 {
        expect(rt, end(rt, array, variable), ends[variable as usize]);
    }
}

fn chain(rt: &impl Abort, array: &mut BindingArray) -> Result<(), Fail> {
    grow(array, 4)?;
    grow(array, 2)?;
    link(rt, array, 3, 2)?;
    link(rt, array, 2, 0)?;
    bind(rt, array, 1, 7)
}

#[test]
fn chains(rt: HostRuntime) -> Result<(), Fail> {
    let mut array = BindingArray::new(rt.alloc());
    chain(&rt, &mut array)?;
    let (first, seven) = (BindingCell::Var(0), BindingCell::Int(7));
    expect_ends(&rt, &array, [first, seven, first, first]);
    free(&rt, &mut array, 2);
    let second = BindingCell::Var(2);
    expect_ends(&rt, &array, [first, seven, second, second]);
    Ok(())
}
