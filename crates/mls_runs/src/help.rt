//! What a shell tells of its commands.

/// Each command, with an example.
pub(crate) const HELP: &str = "\
insert SOD key (\"Enterprise\") values (\"Exploration\", null)     adds a tuple at your label
view SOD at U                                                  shows what is seen of a relation at a label
view SOD at U highest where Objective = \"Spying\"               shows the rows that a condition finds, without cover stories
count SOD at U class = U                                       counts the rows that a view would show
dump SOD                                                       shows what you see of a relation as lines of a script
update SOD key (\"Enterprise\") class U from U set Objective = \"Spying\"
                                                               gives attributes of a tuple new values at your label; tuples
                                                               above it that have them from it get the new ones too
delete SOD key (\"Enterprise\") class U                          removes your label's tuple of a key, and every one above it
all { delete SOD key (\"Old\") class U; view SOD at U }          does several of these as one: all of them, or none
call Known (1, \"x\", null)                                      runs a stored transaction
audit                                                          shows the audit list up to your label
close                                                          ends the session, and the shell
";

const LEAVING: &str = "  close
  It ends the session, and the shell. Or type quit or exit.
";

/// Each command, and its form, an example and what it does.
pub(crate) static TOPICS: [(&str, &str); 14] = [
    (
        "view",
        "  view RELATION at LABEL [highest] [class OP LABEL] [first N] [where CONDITION]
  For example: view SOD at U highest where Objective = \"Spying\"
  It shows the rows of a relation that are seen at a label; with highest, without cover stories.
",
    ),
    (
        "count",
        "  count RELATION at LABEL [highest] [class OP LABEL] [where CONDITION]
  For example: count SOD at U class = U
  It counts the rows that a view would show.
",
    ),
    (
        "dump",
        "  dump RELATION
  For example: dump SOD
  It shows the lines of a script that make again what is seen of a relation.
",
    ),
    (
        "insert",
        "  insert RELATION key (VALUE, ..) values (VALUE, ..)
  For example: insert SOD key (\"Enterprise\") values (\"Exploration\", null)
  It adds a tuple at the session's label.
",
    ),
    (
        "update",
        "  update RELATION key (VALUE, ..) class LABEL from LABEL set ATTRIBUTE = VALUE, ..
  For example: update SOD key (\"Enterprise\") class U from U set Objective = \"Spying\"
  It gives a tuple new values at the session's label. A view shows both of its classes: for class the one beside the key,
  for from the one at the end of the row.
  Every tuple above it that has those values from it gets the new ones too.
",
    ),
    (
        "delete",
        "  delete RELATION key (VALUE, ..) class LABEL
  For example: delete SOD key (\"Enterprise\") class U
  It removes the tuple of a key, and of the class of that key, at the session's label,
  and every tuple of that key and that class above it.
",
    ),
    (
        "all",
        "  all { COMMAND; .. }
  For example: all { expect 1 count SOD at U where Starship = \"Old\"; delete SOD key (\"Old\") class U }
  It does commands in order, each over what those before it left: all of them, or, where one is refused, none.
  They are view, count, insert, update and delete, and expect N count .., which is refused where the count is not N.
",
    ),
    (
        "call",
        "  call TRANSACTION (VALUE, ..)
  For example: call Known (1, \"x\", null)
  It runs a stored transaction.
",
    ),
    (
        "audit",
        "  audit
  It shows the audit list up to the session's label.
",
    ),
    (
        "describe",
        "  describe [RELATION]
  For example: describe SOD
  It shows the relations, the rights and the labels that the session sees, and the transactions that the user may call;
  or one of them.
",
    ),
    (
        "help",
        "  help [COMMAND]
  For example: help view
  It shows all commands, or how one is typed.
",
    ),
    ("close", LEAVING),
    ("quit", LEAVING),
    ("exit", LEAVING),
];
