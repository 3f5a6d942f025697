// Grammars as tables of rows that begin with a token, for any table: their texts, byte by byte. Definitions and theorems only.
#![tactic(auto)]
