//! What a checker of transcripts keeps: of each item of a script, the states that a legal turn with this reply may leave.
//! It stands on hay_legal. Its laws are that each state that is kept is one that a legal turn leaves, and that of all that
//! legal turns may leave, those with the lowest counts are kept.
#![tactic(auto)]
