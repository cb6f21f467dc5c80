//! Certificate trees as they are spelled, with names.

use tpl_model::Finals;

/// A row of a leaf.
#[derive(Drop)]
pub(crate) struct NamedRow<'v> {
    pub(crate) ends: Finals,
    pub(crate) runs: bool,
    pub(crate) before: Vec<&'v str>,
    pub(crate) past: Vec<&'v str>,
    pub(crate) chain: Vec<&'v str>,
    pub(crate) asked: Vec<&'v str>,
    pub(crate) asks: Vec<&'v str>,
}

/// A tree, whose names stand in the document.
#[derive(Drop)]
pub(crate) enum NamedTree<'v> {
    SplitInput(&'v str, Box<NamedTree<'v>>, Box<NamedTree<'v>>),
    SplitEnd(&'v str, Box<NamedTree<'v>>, Box<NamedTree<'v>>, Box<NamedTree<'v>>),
    SplitWinner(&'v str, &'v str, Box<NamedTree<'v>>, Box<NamedTree<'v>>),
    Leaf(Vec<NamedRow<'v>>),
    Least,
}
