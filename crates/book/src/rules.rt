// The rules of a book, tested one by one.
ghost use Rattle.std.specs.Prelude.{◌≡◌, ◌+◌, ◌-◌, true, false, ◌&&◌, length, MatchOption, MatchResult, slice_index_or};
ghost use Rattle.std.specs.List.{list_all};
ghost use Rattle.book.specs.Rules.{from_to_lem, is_class, attributes_of, classes_ok, depth_of, is_empty, scope_ok, term_ok, terms_ok, atom_ok, child_ok, body_ok, formula_ok, some_premise, premises_ok, heads_ok, WellFormed, Refused};

use crate::parts::{Atom, Class, Formula, Node, Term};
use causes::Cause;

const MOST_CLASSES: usize = 32;

const MOST_ATTRIBUTES: u32 = 8;

const MOST_NODES: usize = 4096;

pub(crate) const MOST_TERMS: usize = 8;

const SLOTS: usize = 6;

const LARGEST_COEFFICIENT: u32 = 32_767;

const LARGEST_CONSTANT: u32 = 2_147_483_647;

impl Node {
    // How many slots of its scope are used.
    pub fn depth(&self) -> usize
        ensures { result ≡ depth_of self.now.scope }
    {
        used(&self.scope)
    }
}

// The used slots are those before the first 0.
#[tactic(auto, unfolding(crate::specs::Rules::depth_of))]
fn used(scope: &[u32]) -> usize
    ensures { result ≡ depth_of scope.now }
{
    scope.iter().take_while(|class| **class != 0).count()
}

fn empty(scope: &[u32]) -> bool
    ensures { result ≡ is_empty scope.now }
{
    scope.iter().all(|class| *class == 0)
}

// Classes and nodes are numbered from 1.
fn numbered<T>(items: &[T], n: u32) -> Option<&T>
    ensures { MatchOption result (from_to_lem 1 (length items.now) n ≡ false) (λ x. (from_to_lem 1 (length items.now) n ≡ true) × (x.now ≡ slice_index_or items.now (n - 1) x.now)) }
{
    items.get((n as usize).checked_sub(1)?)
}

fn known(classes: &[Class], class: u32) -> bool
    ensures { result ≡ is_class classes.now class }
{
    numbered(classes, class).is_some()
}

fn all_known(classes: &[Class], scope: &[u32]) -> bool
    ensures { result ≡ list_all (is_class classes.now) scope.now }
{
    scope.iter().all(|class| known(classes, *class))
}

// How many attributes a class has.
pub(crate) fn attributes(classes: &[Class], class: u32) -> Option<u32>
    ensures { MatchOption result (is_class classes.now class ≡ false) (λ k. (is_class classes.now class ≡ true) × (k ≡ attributes_of classes.now class)) }
{
    numbered(classes, class).map(|class| class.attributes)
}

// Where a node stands: the classes, the nodes before it, and its scope.
#[derive(Clone, Copy)]
struct Place<'a> {
    classes: &'a [Class],
    lower: &'a [Node],
    scope: [u32; 6],
}

impl Place<'_> {
    #[tactic(auto, using(crate::proofs::Tests::depth_le, crate::proofs::Tests::slots_split))]
    fn scope_fits(&self) -> bool
        ensures { result ≡ scope_ok self.now.classes.now self.now.scope }
    {
        let (front, rest) = self.scope.split_at(used(&self.scope));
        all_known(self.classes, front) && empty(rest)
    }

    #[tactic(auto, using(crate::proofs::Tests::depth_le))]
    fn term_fits(&self, t: &Term) -> bool
        ensures { result ≡ term_ok self.now.classes.now self.now.scope t.now }
    {
        let slot = t.slot as usize;
        t.coefficient.unsigned_abs() <= LARGEST_COEFFICIENT
            && slot < used(&self.scope)
            && attributes(self.classes, self.scope[slot]).is_some_and(|count| t.attribute < count)
    }

    fn terms_fit(&self, terms: &[Term]) -> bool
        ensures { result ≡ terms_ok self.now.classes.now self.now.scope terms.now }
    {
        terms.iter().all(|t| self.term_fits(t))
    }

    #[tactic(auto, unfolding(crate::specs::Rules::atom_ok))]
    fn atom_fits(&self, a: &Atom) -> bool
        ensures { result ≡ atom_ok self.now.classes.now self.now.scope a.now }
    {
        a.count <= MOST_TERMS
            && self.terms_fit(a.terms())
            && a.constant.unsigned_abs() <= LARGEST_CONSTANT
    }

    fn child_fits(&self, k: u32) -> bool
        ensures { result ≡ child_ok self.now.lower.now (length self.now.lower.now + 1) self.now.scope k }
    {
        let Some(node) = numbered(self.lower, k) else {
            return false;
        };
        node.scope == self.scope
    }

    #[tactic(auto, unfolding(crate::specs::Rules::body_ok))]
    fn body_fits(&self, class: u32, body: u32) -> bool
        ensures { result ≡ body_ok self.now.classes.now self.now.lower.now (length self.now.lower.now + 1) self.now.scope class body }
    {
        let d = used(&self.scope);
        if d >= SLOTS {
            return false;
        }
        let mut wider = *self;
        wider.scope[d] = class;
        known(self.classes, class) && wider.child_fits(body)
    }

    fn formula_fits(&self, formula: &Formula) -> bool
        ensures { result ≡ formula_ok self.now.classes.now self.now.lower.now (length self.now.lower.now + 1) self.now.scope formula.now }
    {
        match formula {
            Formula::AtLeast(a) | Formula::Equal(a) => self.atom_fits(a),
            Formula::And { left, right } | Formula::Or { left, right } => {
                self.child_fits(*left) && self.child_fits(*right)
            }
            Formula::Exists { class, body } | Formula::Every { class, body } => {
                self.body_fits(*class, *body)
            }
        }
    }
}

fn node_fits(classes: &[Class], lower: &[Node], node: &Node) -> bool
    ensures { result ≡ (scope_ok classes.now node.now.scope && formula_ok classes.now lower.now (length lower.now + 1) node.now.scope node.now.formula) }
{
    let place = Place {
        classes,
        lower,
        scope: node.scope,
    };
    place.scope_fits() && place.formula_fits(&node.formula)
}

fn classes_fit(classes: &[Class]) -> bool
    ensures { result ≡ classes_ok classes.now }
{
    classes
        .iter()
        .all(|class| (1..=MOST_ATTRIBUTES).contains(&class.attributes))
}

fn has_premise(nodes: &[Node]) -> bool
    ensures { result ≡ some_premise nodes.now }
{
    nodes.iter().any(|node| node.premise)
}

fn premises_fit(nodes: &[Node]) -> bool
    ensures { result ≡ premises_ok nodes.now }
{
    nodes.iter().all(|node| !node.premise || empty(&node.scope))
}

// Whether the counts and the premise marks keep their rules.
#[tactic(auto, unfolding(crate::specs::Rules::heads_ok))]
fn heads_fit(classes: &[Class], nodes: &[Node]) -> bool
    ensures { result ≡ heads_ok classes.now nodes.now }
{
    (1..=MOST_CLASSES).contains(&classes.len())
        && (1..=MOST_NODES).contains(&nodes.len())
        && classes_fit(classes)
        && has_premise(nodes)
        && premises_fit(nodes)
}

// Every rule of a book, or the first fault.
#[tactic(auto, using(crate::proofs::Lower::node_lower, crate::proofs::Tests::heads_few))]
pub(crate) fn inspect(classes: &[Class], nodes: &[Node]) -> Result<(), Cause>
    ensures { MatchResult result (λ _. WellFormed classes.now nodes.now) (λ e. Refused classes.now nodes.now e) }
{
    if !heads_fit(classes, nodes) {
        return Err(Cause::BadBook { node: 0 });
    }
    for (i, node) in nodes.iter().enumerate() {
        if !node_fits(classes, &nodes[..i], node) {
            return Err(Cause::BadBook { node: i as u32 + 1 });
        }
    }
    Ok(())
}
