//! What is promised: the definitions that the clauses of public functions cite, and no code. Modes, codes of errors,
//! trees, the grammars, the executable specification, the order, texts and their ranges, sort keys, documents, changes
//! of these, paths, what an error says of a text, and what statuses of the library for C say. Whoever believes these
//! definitions needs to read no other crate but for what a type of the code means: the clauses over them are proved.
