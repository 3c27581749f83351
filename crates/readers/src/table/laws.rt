// What the records of a table say, apart from how they are read.
ghost use Rattle.readers.specs.Tables.{TablesSayOneGraph};

// At most one graph; and the table is accepted where that one is within the bounds, and nowhere else.
pub fn tables_say_one_graph()
    ensures { TablesSayOneGraph }
{}
