// The tasks that were read.

ghost use Rattle.std.specs.Prelude.{◌≡◌, [], None, OnOk, MatchOption};
ghost use Rattle.image_check.specs.ImageTable.{has, found, with_new};
ghost use Rattle.image_check.specs.ImageTasks.{is_running, is_ancestor_of, relation_of, HasParent};
ghost use Rattle.image_check.specs.Links.{TaskStandsAt};

use crate::line::{ImageState, ImageTask};
use indexmap::IndexMap;
use jump_pointers::{FarLinks, Link, climb_to, link_below};
use std::alloc::{AllocError, Global};
use std::marker::Model;

/// How one task is related to another.
#[derive(Clone, Copy)]
pub enum Relation {
    /// It is the same task.
    Own,
    /// It is a proper ancestor.
    Above,
    /// It is a proper descendant.
    Below,
    /// Neither is an ancestor of the other.
    Apart,
}

/// Tasks by number, each after its parent.
#[derive(Drop)]
pub struct ImageTasks {
    table: IndexMap<u64, ImageTask>,
    links: Vec<Link>,
}

impl Model for ImageTasks {
    ghost use Rattle.image_check.specs.ImageTasks.{ImageTasks as Listed};
    ghost use Rattle.image_check.specs.Links.{AreLinksOf};

    ghost Value = { Listed };

    ghost view = { λ t. t.table.entries };

    ghost invariant = { λ t. AreLinksOf t.table.entries t.links.items };
}

impl ImageTasks {
    ghost use Rattle.std.specs.Prelude.{◌≡◌, [], None, OnOk, MatchOption, length};
    ghost use Rattle.image_check.specs.ImageTable.{has, found, with_new};
    ghost use Rattle.image_check.specs.ImageTasks.{is_running, is_ancestor_of, image_parent, relation_of, HasParent};
    ghost use Rattle.image_check.specs.Links.{TaskStandsAt, IsParentAt};

    pub(crate) fn new(alloc: Global) -> ImageTasks
        ensures { result ≡ [] }
    {
        ImageTasks {
            table: IndexMap::new(alloc),
            links: Vec::new(alloc),
        }
    }

    /// Whether there is a task of this number.
    pub(crate) fn has(&self, number: u64) -> bool
        ensures { result ≡ has self.now number }
    {
        self.table.contains_key(&number)
    }

    /// Whether the task is there and runs.
    pub fn runs(&self, number: u64) -> bool
        ensures { result ≡ is_running self.now number }
    {
        match self.table.get(&number) {
            None => false,
            Some(task) => matches!(task.state, ImageState::Running),
        }
    }

    /// The number of tasks.
    pub fn len(&self) -> usize
        ensures { result ≡ length self.now }
    {
        self.table.len()
    }

    /// The parent of a task, if it has one.
    pub fn parent(&self, number: u64) -> Option<u64>
        ensures { result ≡ image_parent self.now number }
    {
        match self.table.get(&number) {
            None => None,
            Some(task) => task.parent,
        }
    }

    // The place of a task.
    fn place(&self, number: u64) -> Option<usize>
        ensures { MatchOption result (found self.now number ≡ None) (λ i. TaskStandsAt self.now i number) }
    {
        self.table.get_index_of(&number)
    }

    // The place of a parent, which must be there.
    fn parent_place(&self, parent: Option<u64>) -> Option<usize>
        requires { HasParent self.now parent }
        ensures { IsParentAt self.now parent result }
    {
        match parent {
            None => None,
            Some(number) => self.place(number),
        }
    }

    /// Adds a task unless its number is there. Its parent must be there.
    pub(crate) fn put(&mut self, task: ImageTask) -> Result<(), AllocError>
        requires { HasParent self.old task.parent }
        ensures { OnOk result (self.new ≡ with_new self.old task.number task) }
    {
        if self.has(task.number) {
            return Ok(());
        }
        let parent = self.parent_place(task.parent);
        let link = link_below(&self.links, self.table.len(), parent);
        self.links.reserve(1)?;
        self.table.insert(task.number, task)?;
        self.links.push_reserved(link);
        Ok(())
    }

    /// Whether a task is a proper ancestor of another.
    pub(crate) fn is_ancestor(&self, above: u64, below: u64) -> bool
        ensures { result ≡ is_ancestor_of self.now above below }
    {
        let links = &self.links;
        let Some(top) = self.place(above) else {
            return false;
        };
        let Some(place) = self.place(below) else {
            return false;
        };
        let depth = links.link(top).depth;
        if links.link(place).depth <= depth {
            return false;
        }
        climb_to(links, place, depth) == top
    }

    /// How another task is related to a task.
    pub fn relation(&self, task: u64, other: u64) -> Relation
        ensures { result ≡ relation_of self.now task other }
    {
        if other == task {
            Relation::Own
        } else if self.is_ancestor(other, task) {
            Relation::Above
        } else if self.is_ancestor(task, other) {
            Relation::Below
        } else {
            Relation::Apart
        }
    }
}
