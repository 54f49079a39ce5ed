mod number_sets;
