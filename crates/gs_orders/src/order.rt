// Orders.
use crate::hand::Handed;
use gs_talk::Formula;
use gs_tree::Mode;
use gs_types::Blob;

/// What one step of a program does. Variables and handles are named by their places in the order of
/// declaration, and `next` is the place of the order that follows.
#[derive(Drop)]
pub enum Order {
    Skip {
        line: u32,
        next: usize,
    },
    Set {
        line: u32,
        to: usize,
        value: Formula,
        next: usize,
    },
    Test {
        line: u32,
        value: Formula,
        yes: usize,
        no: usize,
    },
    Open {
        line: u32,
        to: usize,
        path: Formula,
        mode: Mode,
        next: usize,
    },
    Read {
        line: u32,
        got: usize,
        handle: usize,
        to: usize,
        next: usize,
    },
    Close {
        line: u32,
        handle: usize,
        next: usize,
    },
    Wait {
        line: u32,
        next: usize,
    },
    Print {
        line: u32,
        format: Blob,
        args: Vec<Formula>,
        next: usize,
    },
    PrintFile {
        line: u32,
        handle: usize,
        format: Blob,
        args: Vec<Formula>,
        next: usize,
    },
    PrintStr {
        line: u32,
        to: usize,
        format: Blob,
        args: Vec<Formula>,
        next: usize,
    },
    Call {
        line: u32,
        op: u8,
        args: Vec<Handed>,
        next: usize,
    },
    Leave {
        line: u32,
    },
}
