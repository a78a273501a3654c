// Definitions and theorems alone: the words of a family, the writing and the loading of an image. The calls are in `images`.

#![tactic(auto)]
