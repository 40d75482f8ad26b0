// What the words of a window say, word by word. No code.
#![tactic(auto)]
