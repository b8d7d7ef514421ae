//! A first count of structures and of their edges, so that memory is taken at once.
use typing::Value;

/// How many structures and edges there will be. No clause says so: it is a hint.
#[derive(Clone, Copy, Debug)]
pub(crate) struct Sizes {
    pub structures: usize,
    pub edges: usize,
}

impl Sizes {
    /// One more structure, with so many edges.
    fn add(&mut self, edges: usize) {
        self.structures = self.structures.saturating_add(1);
        self.edges = self.edges.saturating_add(edges);
    }
}

/// The count of all structures in some values.
pub(crate) fn room_for(values: &[Value]) -> Sizes {
    let mut found = Sizes {
        structures: 0,
        edges: 0,
    };
    for value in values {
        count(value, &mut found);
    }
    found
}

#[cycle(count)]
fn count(value: &Value, found: &mut Sizes) {
    match value {
        Value::State(_) => {}
        Value::Label(_) => found.add(0),
        Value::Tuple(parts) => {
            found.add(parts.len());
            count_each(parts.as_slice(), found)
        }
        Value::Set(members) => {
            found.add(members.len());
            count_each(members.as_slice(), found)
        }
        Value::Inj(_, inner) => {
            found.add(1);
            count(inner.get(), found)
        }
        Value::Weights(entries) => {
            found.add(entries.len());
            for (value, _) in entries.as_slice() {
                count(value, found);
            }
        }
    }
}

#[cycle(count)]
fn count_each(values: &[Value], found: &mut Sizes) {
    for value in values {
        count(value, found);
    }
}
