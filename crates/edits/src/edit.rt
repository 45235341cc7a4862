// An edit as data.

#[derive(Clone, Copy)]
pub enum Edit {
    AddVertex(u16),
    RemoveVertex(u16),
    InsertEdge {
        edge: u16,
        first: u16,
        second: u16,
        turns: i16,
        length: u16,
    },
    DeleteEdge(u16),
    TurnEdge {
        edge: u16,
        amount: i16,
    },
}
