//! A namespace that stays from line to line, and what is searched in it.

use crate::lists::{serial, written};
use crate::objects::add_object;
use ld_base::{Added, NsId, Serial, Serials, Want};
use scope_rule::{
    Namespace, OpenRec, OpenedLists, Opens, View, breadth, choose, opened_lists, scope,
    search_breadth, search_global,
};
use std::alloc::Global;
use test_file::{Fault, Words, show, show_some};

/// A namespace, the new objects of an opening, and the files that a load finds.
#[derive(Drop)]
pub struct Scene {
    pub ns: Namespace,
    added: Added,
    pub files: String,
}

impl Scene {
    pub fn new(alloc: Global) -> Self {
        Scene {
            ns: Namespace {
                id: NsId::BASE,
                objects: Added::new(alloc),
                global: Serials::new(alloc),
                opens: Opens::new(alloc),
            },
            added: Added::new(alloc),
            files: String::new(alloc),
        }
    }

    /// From here on there is nothing.
    pub fn clear(&mut self, alloc: Global) -> Result<String, Fault> {
        self.ns.objects = Added::new(alloc);
        self.ns.global = Serials::new(alloc);
        self.ns.opens = Opens::new(alloc);
        self.added = Added::new(alloc);
        show(alloc, self.ns.objects.len())
    }

    /// Puts an object into the namespace. Gives how many there are.
    pub fn object(&mut self, alloc: Global, words: &mut Words) -> Result<String, Fault> {
        add_object(alloc, &mut self.ns.objects, words)?;
        show(alloc, self.ns.objects.len())
    }

    /// Puts an object among the new ones. Gives how many there are.
    pub fn new_object(&mut self, alloc: Global, words: &mut Words) -> Result<String, Fault> {
        add_object(alloc, &mut self.added, words)?;
        show(alloc, self.added.len())
    }

    /// Opens an object globally, for the first time. Gives the objects that are global then.
    pub fn open(&mut self, alloc: Global, words: &mut Words) -> Result<String, Fault> {
        let root = serial(words.text()?)?;
        self.ns.global = breadth(alloc, &self.ns.view(), root)?;
        self.ns.opens.push(OpenRec { root, count: 1 })?;
        written(alloc, self.ns.global.as_slice())
    }

    /// What is seen of the namespace with the new objects.
    fn view(&self) -> View {
        self.ns.view_with(self.added.as_slice())
    }

    /// The choice of an object's symbol.
    pub fn choose(&self, alloc: Global, words: &mut Words) -> Result<String, Fault> {
        let owner = serial(words.text()?)?;
        let symbol = words.number32()?;
        let view = self.ns.view();
        let object = view.object(owner).ok_or(Fault::Unclear)?;
        if symbol >= object.object.symbols.len() {
            return Err(Fault::Unclear);
        }
        show(alloc, choose(alloc, &self.ns, owner, symbol, false)?)
    }

    /// Where the references of an object are searched.
    pub fn scope(&self, alloc: Global, words: &mut Words) -> Result<String, Fault> {
        let owner = serial(words.text()?)?;
        let view = self.view();
        let object = view.object(owner).ok_or(Fault::Unclear)?;
        written(alloc, scope(alloc, &view, object)?.as_slice())
    }

    /// The objects that one leads to.
    pub fn breadth(&self, alloc: Global, words: &mut Words) -> Result<String, Fault> {
        let root = serial(words.text()?)?;
        written(alloc, breadth(alloc, &self.view(), root)?.as_slice())
    }

    /// Whether an object is in the namespace, and whether it is there with the new ones.
    pub fn is_there(&self, alloc: Global, words: &mut Words) -> Result<String, Fault> {
        let serial = serial(words.text()?)?;
        let now = self.ns.view().object(serial).is_some();
        let then = self.view().object(serial).is_some();
        show(alloc, (now, then))
    }

    /// What dlsym finds of a name on a handle of an object.
    pub fn on_handle(&self, alloc: Global, words: &mut Words) -> Result<String, Fault> {
        let (root, name) = (serial(words.text()?)?, words.text()?);
        let found = search_breadth(alloc, &self.view(), root, name.as_bytes(), &Want::Dlsym)?;
        show_some(alloc, found)
    }

    /// What dlsym finds of a name on RTLD_DEFAULT.
    pub fn on_default(&self, alloc: Global, words: &mut Words) -> Result<String, Fault> {
        let name = words.text()?;
        let found = search_global(&self.view(), name.as_bytes(), &Want::Dlsym);
        show_some(alloc, found)
    }

    /// The lists that a global opening leaves: the global objects, and how many openings count.
    pub fn opened(&self, alloc: Global, words: &mut Words) -> Result<String, Fault> {
        let root = serial(words.text()?)?;
        let lists = opened_lists(alloc, &self.view(), root, true)?;
        opened_text(alloc, &lists)
    }
}

fn opened_text(alloc: Global, lists: &OpenedLists) -> Result<String, Fault> {
    let mut text = written(alloc, lists.global.as_slice())?;
    let count = lists.opens.len();
    write!(text, " {count}")?;
    Ok(text)
}
